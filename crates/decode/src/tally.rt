// How many lines there were of each outcome.
ghost use Rattle.std.specs.Prelude.{◌≡◌};
ghost use Rattle.decode.specs.Tallies.{no_lines, noted};

use crate::outcome::Refusal;
use frames::frame::Frame;
use std::fmt;
use words::counting::count;

// The number of the first fault.
const FIRST: u8 = 20;

#[derive(Clone, Copy, Default)]
pub struct Tally {
    pub frames: u64,
    // By number from 20 to 28. An array, not a map, which would ask for memory, nor a table of pairs,
    // to be searched: a fault's number is its place. The last of them, a buffer too short to write
    // into, is never met in reading.
    pub faults: [u64; 9],
    pub bad_lines: u64,
}

impl Tally {
    pub(crate) fn new() -> Tally
        ensures { result ≡ no_lines }
    {
        Tally::default()
    }

    pub(crate) fn note(&mut self, outcome: Result<Frame, Refusal>)
        ensures { self.new ≡ noted self.old outcome }
    {
        match outcome {
            Ok(_) => count(&mut self.frames),
            Err(Refusal::Fault(fault)) => {
                let place = (fault.kind.number() - FIRST) as usize;
                count(&mut self.faults[place]);
            }
            Err(Refusal::Line(_)) => count(&mut self.bad_lines),
        }
    }
}

impl fmt::Display for Tally {
    fn fmt<W: fmt::Write>(&self, f: &mut fmt::Formatter<W>) -> fmt::Result {
        write!(f, "frames: {}", self.frames)?;
        for (number, count) in (FIRST..28).zip(self.faults[0..8].iter()) {
            write!(f, ", fault {number}: {count}")?;
        }
        write!(f, ", bad lines: {}", self.bad_lines)
    }
}
