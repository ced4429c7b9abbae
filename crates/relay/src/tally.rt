// How often each thing came about.
ghost use Rattle.std.specs.Prelude.{◌≡◌};
ghost use Rattle.relay.specs.Tallies.{nothing_yet, noted};

use std::fmt;
use words::counting::count;

#[derive(Clone, Copy, Debug, PartialEq, Eq)]
pub enum Event {
    Put,
    Given,
    Nothing,
    BadLine,
}

// A count that is full stays as it is.
#[derive(Clone, Copy, Default)]
pub struct Tally {
    pub puts: u64,
    pub takes: u64,
    pub given: u64,
    pub nothing: u64,
    pub bad_lines: u64,
}

impl Tally {
    pub(crate) fn new() -> Tally
        ensures { result ≡ nothing_yet }
    {
        Tally::default()
    }

    // A take counts as one, whatever it answered.
    pub(crate) fn note(&mut self, event: Event)
        ensures { self.new ≡ noted self.old event }
    {
        match event {
            Event::Put => count(&mut self.puts),
            Event::Given => {
                count(&mut self.takes);
                count(&mut self.given);
            }
            Event::Nothing => {
                count(&mut self.takes);
                count(&mut self.nothing);
            }
            Event::BadLine => count(&mut self.bad_lines),
        }
    }
}

impl fmt::Display for Tally {
    fn fmt<W: fmt::Write>(&self, f: &mut fmt::Formatter<W>) -> fmt::Result {
        write!(
            f,
            "puts: {}, takes: {}, frames given: {}, nothing given: {}, bad lines: {}",
            self.puts, self.takes, self.given, self.nothing, self.bad_lines
        )
    }
}
