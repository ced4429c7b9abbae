// How often each thing came about.
ghost use Rattle.std.specs.Prelude.{◌≡◌};
ghost use Rattle.register.specs.Tallies.{nothing_yet, noted};

use std::fmt;
use words::counting::count;

#[derive(Clone, Copy, Debug, PartialEq, Eq)]
pub enum Event {
    Accepted,
    Denied,
    Put,
    BadLine,
}

// A count that is full stays as it is.
#[derive(Clone, Copy, Default)]
pub struct Tally {
    pub accepted: u64,
    pub denied: u64,
    pub puts: u64,
    pub bad_lines: u64,
}

impl Tally {
    pub(crate) fn new() -> Tally
        ensures { result ≡ nothing_yet }
    {
        Tally::default()
    }

    pub(crate) fn note(&mut self, event: Event)
        ensures { self.new ≡ noted self.old event }
    {
        match event {
            Event::Accepted => count(&mut self.accepted),
            Event::Denied => count(&mut self.denied),
            Event::Put => count(&mut self.puts),
            Event::BadLine => count(&mut self.bad_lines),
        }
    }
}

impl fmt::Display for Tally {
    fn fmt<W: fmt::Write>(&self, f: &mut fmt::Formatter<W>) -> fmt::Result {
        write!(
            f,
            "calls accepted: {}, denied: {}, frames put: {}, bad lines: {}",
            self.accepted, self.denied, self.puts, self.bad_lines
        )
    }
}
