// The SGSN's table, for planners.
use context::context::Context;
use elements::node::{SgsnNumber, VlrNumber};
use imsi::Imsi;
use station::mark::Mark;
use std::fmt;
use words::in_words::InWords;

const LONGEST_IMSI: usize = 15;

pub(crate) const HEAD: &str =
    "IMSI             mark       VLR  its own mark  area        class  packet service";

// One mobile, under the head, with the mark that the VLR itself has of it.
#[derive(Clone, Copy)]
pub(crate) struct Row {
    pub(crate) context: Context,
    pub(crate) at_vlr: Option<Mark<SgsnNumber>>,
}

impl fmt::Display for Row {
    fn fmt<W: fmt::Write>(&self, f: &mut fmt::Formatter<W>) -> fmt::Result {
        let Row { context, at_vlr } = *self;
        write!(
            f,
            "{}  {:<9}  ",
            Column(context.imsi),
            name_of(context.mark)
        )?;
        match context.mark.node() {
            Some(vlr) => write!(f, "{:<3}  ", vlr.node.number)?,
            None => f.write_str("-    ")?,
        }
        write!(f, "{:<12}  ", at_vlr.map_or("-", name_of))?;
        match context.area {
            Some(area) => write!(f, "{}  ", InWords(area))?,
            None => f.write_str("-           ")?,
        }
        let service = if context.attached {
            "attached"
        } else {
            "detached"
        };
        write!(f, "{:?}      {service}", context.class)
    }
}

fn name_of<N: Copy>(mark: Mark<N>) -> &'static str {
    match mark {
        Mark::None => "None",
        Mark::Confirmed(_) => "Confirmed",
        Mark::Unsure(_) => "Unsure",
    }
}

// An IMSI with blanks behind it.
#[derive(Clone, Copy)]
struct Column(Imsi);

impl fmt::Display for Column {
    fn fmt<W: fmt::Write>(&self, f: &mut fmt::Formatter<W>) -> fmt::Result {
        let behind = LONGEST_IMSI.saturating_sub(self.0.digits as usize);
        write!(f, "{}{:behind$}", self.0, "")
    }
}

// How many mobiles of the table are marked so.
#[derive(Clone, Copy)]
pub(crate) struct Count {
    vlr: VlrNumber,
    confirmed: usize,
    unsure: usize,
}

impl Count {
    pub(crate) fn at(vlr: VlrNumber, table: &[Context]) -> Count {
        Count {
            vlr,
            confirmed: marked(table, Mark::Confirmed(vlr)),
            unsure: marked(table, Mark::Unsure(vlr)),
        }
    }
}

impl fmt::Display for Count {
    fn fmt<W: fmt::Write>(&self, f: &mut fmt::Formatter<W>) -> fmt::Result {
        let Count {
            vlr,
            confirmed,
            unsure,
        } = *self;
        write!(f, "{vlr}: Confirmed {confirmed}, Unsure {unsure}")
    }
}

pub(crate) fn marked(table: &[Context], mark: Mark<VlrNumber>) -> usize {
    table.iter().filter(|context| context.mark == mark).count()
}
