// What became of a mobile's last request or detach.
ghost use Rattle.std.specs.Prelude.{◌≡◌};
ghost use Rattle.context.specs.Errands.{verdict_number, is_open, owes};

use elements::area::LocationArea;
use elements::code::{GprsDetachType, RejectCause};
use elements::node::VlrNumber;
use std::fmt;

// How a request or detach ended.
#[derive(Clone, Copy, Debug, PartialEq, Eq)]
pub enum Verdict {
    // as it was asked
    Done,
    // the VLR turned the mobile away
    Rejected(RejectCause),
    // the VLR did not respond in time
    NotResponding,
}

impl Verdict {
    // The number by which users know this verdict.
    pub fn number(self) -> u8
        ensures { result ≡ verdict_number self }
    {
        match self {
            Verdict::Done => 1,
            Verdict::Rejected(_) => 2,
            Verdict::NotResponding => 3,
        }
    }
}

// The number for a program, and the meaning for a person.
impl fmt::Display for Verdict {
    fn fmt<W: fmt::Write>(&self, f: &mut fmt::Formatter<W>) -> fmt::Result {
        write!(f, "verdict {}: ", self.number())?;
        match self {
            Verdict::Done => f.write_str("as it was asked"),
            Verdict::Rejected(cause) => write!(f, "rejected, cause {cause}"),
            Verdict::NotResponding => f.write_str("the VLR did not respond"),
        }
    }
}

// What the VLR is to answer.
#[derive(Clone, Copy, Debug, PartialEq, Eq)]
pub enum Awaited {
    // the location update of a mobile that entered this area
    Update { new_area: LocationArea },
    // the end of packet service, which can be told so often again
    GprsDetach { detach: GprsDetachType, repeats: u8 },
    // the end of voice service; whether packet service stays
    ImsiDetach { stays: bool },
}

// A request or detach without a verdict: what went to which VLR, and how long its answer may take.
#[derive(Clone, Copy, Debug, PartialEq, Eq)]
pub struct Open {
    pub vlr: VlrNumber,
    // of the frame that went out, or of its last repeat
    pub stamp: u32,
    // ticks left
    pub ticks: u8,
    pub awaited: Awaited,
}

// Each request or detach owes the mobile a reply, which stays owed after the verdict until it is settled.
#[derive(Clone, Copy, Debug, PartialEq, Eq)]
pub enum Errand {
    // nothing is owed
    Idle,
    // the VLR's answer is to come
    Open(Open),
    // the reply can be settled
    Ended(Verdict),
}

impl Errand {
    // Is a verdict still to come?
    pub fn is_open(self) -> bool
        ensures { result ≡ is_open self }
    {
        matches!(self, Errand::Open(_))
    }

    // Is a reply owed?
    pub fn owes(self) -> bool
        ensures { result ≡ owes self }
    {
        !matches!(self, Errand::Idle)
    }
}
