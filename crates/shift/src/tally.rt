// How often each thing came about.
ghost use Rattle.std.specs.Prelude.{◌≡◌};
ghost use Rattle.shift.specs.Tallies.{nothing_yet, noted};

use std::fmt;
use words::counting::count;

#[derive(Clone, Copy, Debug, PartialEq, Eq)]
pub enum Event {
    Accepted,
    // a call that was denied, or for a node that is not here
    Refused,
    // of a frame: it waits in the net
    Sent,
    Taken,
    Dropped,
    Lost,
}

// A count that is full stays as it is.
#[derive(Clone, Copy, Default)]
pub struct Tally {
    pub accepted: u64,
    pub refused: u64,
    pub sent: u64,
    pub taken: u64,
    pub dropped: u64,
    pub lost: u64,
}

impl Tally {
    pub(crate) fn new() -> Tally
        ensures { result ≡ nothing_yet }
    {
        Tally::default()
    }

    pub(crate) fn note(&mut self, event: Event)
        ensures { self.new ≡ noted self.old event }
    {
        match event {
            Event::Accepted => count(&mut self.accepted),
            Event::Refused => count(&mut self.refused),
            Event::Sent => count(&mut self.sent),
            Event::Taken => count(&mut self.taken),
            Event::Dropped => count(&mut self.dropped),
            Event::Lost => count(&mut self.lost),
        }
    }
}

impl fmt::Display for Tally {
    fn fmt<W: fmt::Write>(&self, f: &mut fmt::Formatter<W>) -> fmt::Result {
        write!(
            f,
            "calls accepted: {}, refused: {}; ",
            self.accepted, self.refused
        )?;
        write!(f, "frames sent: {}, taken: {}, ", self.sent, self.taken)?;
        write!(f, "dropped: {}, lost: {}", self.dropped, self.lost)
    }
}
