// The table of a register, and what it comes to.
use station::mark::Mark;
use std::fmt;
use vlr::record::Record;
use vlr::vlr::{PLACES, Vlr};

// One record.
#[derive(Clone, Copy)]
pub(crate) struct Row(pub(crate) Record);

impl fmt::Display for Row {
    fn fmt<W: fmt::Write>(&self, f: &mut fmt::Formatter<W>) -> fmt::Result {
        let Row(record) = *self;
        let attached = if record.attached {
            "attached"
        } else {
            "detached"
        };
        write!(
            f,
            "IMSI {}, home cause {}, {attached}, mark {}",
            record.imsi, record.home_cause, record.mark
        )
    }
}

// How many records there are of each sort.
#[derive(Clone, Copy)]
pub(crate) struct Census {
    mobiles: usize,
    attached: usize,
    confirmed: usize,
    unsure: usize,
}

impl Census {
    pub(crate) fn of(records: &[Record]) -> Census {
        let confirmed = |record: &&Record| matches!(record.mark, Mark::Confirmed(_));
        let unsure = |record: &&Record| matches!(record.mark, Mark::Unsure(_));
        Census {
            mobiles: records.len(),
            attached: records.iter().filter(|record| record.attached).count(),
            confirmed: records.iter().filter(confirmed).count(),
            unsure: records.iter().filter(unsure).count(),
        }
    }
}

impl fmt::Display for Census {
    fn fmt<W: fmt::Write>(&self, f: &mut fmt::Formatter<W>) -> fmt::Result {
        write!(
            f,
            "mobiles: {} of {PLACES}, attached: {}, marks Confirmed: {}, marks Unsure: {}",
            self.mobiles, self.attached, self.confirmed, self.unsure
        )
    }
}
