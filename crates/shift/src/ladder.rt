// Frames between the SGSN, on the left, and its VLRs.
use crate::tally::Event;
use carrier::datagram::Datagram;
use elements::node::NodeNumber;
use frames::frame::Frame;
use frames::reading::read_frame;
use imsi::Imsi;
use messages::message::Message;
use std::fmt;
use words::in_words::InWords;

// What became of a frame.
#[derive(Clone, Copy, Debug, PartialEq, Eq)]
pub(crate) enum Fate {
    Sent,
    Taken,
    // the net gave it, and the gate did not
    Dropped,
    Lost,
}

impl Fate {
    fn word(self) -> &'static str {
        match self {
            Fate::Sent => "sent",
            Fate::Taken => "taken",
            Fate::Dropped => "dropped",
            Fate::Lost => "lost",
        }
    }

    pub(crate) fn event(self) -> Event {
        match self {
            Fate::Sent => Event::Sent,
            Fate::Taken => Event::Taken,
            Fate::Dropped => Event::Dropped,
            Fate::Lost => Event::Lost,
        }
    }

    // How far it came: from the SGSN to a VLR.
    fn downward(self) -> &'static str {
        match self {
            Fate::Sent => "---->",
            Fate::Taken => "====>",
            Fate::Dropped => "===| ",
            Fate::Lost => "--x  ",
        }
    }

    fn upward(self) -> &'static str {
        match self {
            Fate::Sent => "<----",
            Fate::Taken => "<====",
            Fate::Dropped => " |===",
            Fate::Lost => "  x--",
        }
    }
}

// One frame.
#[derive(Clone, Copy)]
pub(crate) struct Rung {
    pub(crate) sgsn: NodeNumber,
    pub(crate) fate: Fate,
    pub(crate) datagram: Datagram,
}

impl fmt::Display for Rung {
    fn fmt<W: fmt::Write>(&self, f: &mut fmt::Formatter<W>) -> fmt::Result {
        let (arrow, vlr) = if self.datagram.source() == self.sgsn {
            (self.fate.downward(), self.datagram.destination())
        } else {
            (self.fate.upward(), self.datagram.source())
        };
        let left = self.sgsn.number;
        let right = vlr.number;
        write!(
            f,
            "  {left:>3} {arrow} {right:<3}  {:<7}  ",
            self.fate.word()
        )?;
        match read_frame(self.datagram.as_slice()) {
            Ok(frame) => write!(f, "{}", Brief(frame)),
            Err(fault) => write!(f, "{fault}"),
        }
    }
}

// A frame's message and stamps.
#[derive(Clone, Copy)]
struct Brief(Frame);

impl fmt::Display for Brief {
    fn fmt<W: fmt::Write>(&self, f: &mut fmt::Formatter<W>) -> fmt::Result {
        let frame = self.0;
        write!(f, "{}", InWords(frame.message.kind()))?;
        content(f, frame.message)?;
        if frame.answers == 0 {
            write!(f, "  (stamp {})", frame.stamp)
        } else {
            write!(f, "  (stamp {}, answers {})", frame.stamp, frame.answers)
        }
    }
}

// What a message says, without what the line of its call has shown.
fn content<W: fmt::Write>(f: &mut fmt::Formatter<W>, message: Message) -> fmt::Result {
    match message {
        Message::Paging { imsi, .. } => write!(f, " {imsi}"),
        Message::PagingFailure { imsi, cause } | Message::MobileStatus { imsi, cause } => of_mobile(
            f,
            imsi,
            InWords(cause),
        ),
        Message::LuRequest {
            imsi,
            update,
            old_area,
            new_area,
            ..
        } => {
            of_mobile(f, imsi, InWords(update))?;
            write!(f, ", {} to {}", InWords(old_area), InWords(new_area))
        }
        Message::LuAccept { imsi, new_area } => of_mobile(f, imsi, InWords(new_area)),
        Message::LuReject { imsi, cause } => of_mobile(f, imsi, cause),
        Message::Reset { .. } | Message::ResetAcknowledge { .. } => Ok(()),
        Message::GprsDetachIndication { imsi, detach }
        | Message::GprsDetachAcknowledge { imsi, detach } => of_mobile(f, imsi, InWords(detach)),
        Message::ImsiDetachIndication { imsi, detach }
        | Message::ImsiDetachAcknowledge { imsi, detach } => of_mobile(f, imsi, InWords(detach)),
    }
}

fn of_mobile<W: fmt::Write, T: fmt::Display + Drop>(
    f: &mut fmt::Formatter<W>,
    imsi: Imsi,
    value: T,
) -> fmt::Result {
    write!(f, " {imsi}, {value}")
}
