// What can be wrong with octets, or with what is to be written.
ghost use Rattle.std.specs.Prelude.{◌≡◌};
ghost use Rattle.elements.specs.Faults.{fault_number, fault_layer};

use std::error::Error;
use std::fmt;

// The part of the format that a fault belongs to.
#[derive(Clone, Copy, Debug, PartialEq, Eq, Hash)]
pub enum Layer {
    Frame,
    Message,
}

// Each kind has the number by which users know it. Which rule is broken, its text says.
#[derive(Clone, Copy, Debug, PartialEq, Eq, Hash, PartialOrd, Ord)]
pub enum FaultKind {
    FrameSize = 20,
    Nodes = 21,
    Stamp = 22,
    MessageType = 23,
    Identifier = 24,
    Length = 25,
    Contents = 26,
    Trailing = 27,
    Buffer = 28,
}

impl FaultKind {
    pub fn number(self) -> u8
        ensures { result ≡ fault_number self }
    {
        self as u8
    }

    // This fault, at this place.
    pub fn at(self, place: usize) -> Fault
        ensures { result ≡ record { kind = self; place = place } }
    {
        Fault { kind: self, place }
    }

    pub fn layer(self) -> Layer
        ensures { result ≡ fault_layer self }
    {
        match self {
            FaultKind::FrameSize | FaultKind::Nodes | FaultKind::Stamp | FaultKind::Buffer =>
                Layer::Frame,
            FaultKind::MessageType
            | FaultKind::Identifier
            | FaultKind::Length
            | FaultKind::Contents
            | FaultKind::Trailing => Layer::Message,
        }
    }
}

// A fault and its place, counted from 0 in the octets that were handed in.
#[derive(Clone, Copy, Debug, PartialEq, Eq, Hash)]
pub struct Fault {
    pub kind: FaultKind,
    pub place: usize,
}

impl fmt::Display for Layer {
    fn fmt<W: fmt::Write>(&self, f: &mut fmt::Formatter<W>) -> fmt::Result {
        f.write_str(match self {
            Layer::Frame => "frame",
            Layer::Message => "message",
        })
    }
}

// Which rule is broken.
impl fmt::Display for FaultKind {
    fn fmt<W: fmt::Write>(&self, f: &mut fmt::Formatter<W>) -> fmt::Result {
        f.write_str(match self {
            FaultKind::FrameSize => "not 11 to 64 octets",
            FaultKind::Nodes => "the nodes are not two different numbers from 1 to 254",
            FaultKind::Stamp => "the stamp is 0",
            FaultKind::MessageType => "no message has this type",
            FaultKind::Identifier => "not the element that must come next",
            FaultKind::Length => "a length that the element or the end of the octets forbids",
            FaultKind::Contents => "contents that the element forbids",
            FaultKind::Trailing => "octets after the last element",
            FaultKind::Buffer => "a buffer shorter than the longest frame",
        })
    }
}

// Number, layer and place for a program, and the reason for a person.
impl fmt::Display for Fault {
    fn fmt<W: fmt::Write>(&self, f: &mut fmt::Formatter<W>) -> fmt::Result {
        let Fault { kind, place } = *self;
        write!(
            f,
            "fault {} {} {place}: {kind}",
            kind.number(),
            kind.layer()
        )
    }
}

impl Error for Fault {}
