// Frames in words: who sends to whom, the stamps, and the message.
use crate::in_words::InWords;
use elements::fault::{Fault, FaultKind};
use frames::frame::Frame;
use frames::reading::read_frame;
use std::fmt;

impl fmt::Display for InWords<Frame> {
    fn fmt<W: fmt::Write>(&self, f: &mut fmt::Formatter<W>) -> fmt::Result {
        let Frame {
            source,
            destination,
            stamp,
            answers,
            message,
        } = self.0;
        write!(f, "node {source} to node {destination}, stamp {stamp}, ")?;
        if answers == 0 {
            write!(f, "answers none: {}", InWords(message))
        } else {
            write!(f, "answers stamp {answers}: {}", InWords(message))
        }
    }
}

// What octets are read as: a frame, or the fault by which they are none.
impl fmt::Display for InWords<Result<Frame, Fault>> {
    fn fmt<W: fmt::Write>(&self, f: &mut fmt::Formatter<W>) -> fmt::Result {
        match self.0 {
            Ok(frame) => write!(f, "{}", InWords(frame)),
            Err(fault) => write!(f, "{fault}"),
        }
    }
}

// Octets that a carrier is given, and how the program calls that. Such as are not 11 to 64 in number are lost
// in every carrier.
#[derive(Clone, Copy)]
pub struct Offered<'a> {
    pub how: &'a str,
    pub octets: &'a [u8],
}

impl fmt::Display for Offered<'_> {
    fn fmt<W: fmt::Write>(&self, f: &mut fmt::Formatter<W>) -> fmt::Result {
        f.write_str(self.how)?;
        let read = read_frame(self.octets);
        if matches!(read, Err(fault) if fault.kind == FaultKind::FrameSize) {
            f.write_str(", lost")?;
        }
        write!(f, ": {}", InWords(read))
    }
}
