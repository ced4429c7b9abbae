// Which call an answer is for.
use imsi::Imsi;
use std::fmt;

// One call of several that a line asks for.
#[derive(Clone, Copy)]
pub(crate) struct Turn {
    pub(crate) nth: usize,
    pub(crate) of: usize,
}

#[derive(Clone, Copy)]
pub(crate) enum Heading<'a> {
    // a call that a line asks for, in the line's words
    Line {
        number: u64,
        words: &'a str,
    },
    // one of several
    Turn {
        number: u64,
        words: &'a str,
        turn: Turn,
    },
    // after the last line
    LastTick(usize),
    LastSettle(Imsi),
}

impl fmt::Display for Heading<'_> {
    fn fmt<W: fmt::Write>(&self, f: &mut fmt::Formatter<W>) -> fmt::Result {
        match *self {
            Heading::Line { number, words } => write!(f, "line {number}: {words}"),
            Heading::Turn {
                number,
                words,
                turn,
            } => write!(f, "line {number}: {words}, {} of {}", turn.nth, turn.of),
            Heading::LastTick(nth) => write!(f, "end: tick {nth}"),
            Heading::LastSettle(imsi) => write!(f, "end: settle {imsi}"),
        }
    }
}
