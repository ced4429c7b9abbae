// What a reader found. Types of its own, not the library's, and plain numbers, so that the answers of two
// readers that share nothing can be held against each other.
use arrayvec::ArrayVec;
use std::fmt;

// No message has more than five elements. There is room for one more, so that one too many is seen.
const ROOM: usize = 6;

// The part of the format that a fault belongs to.
#[derive(Clone, Copy, Debug, PartialEq, Eq)]
pub(crate) enum Part {
    Frame,
    Message,
}

// Why octets were refused, and at which of them. The number may be that of no rule that this program knows.
#[derive(Clone, Copy, Debug, PartialEq, Eq)]
pub(crate) struct Refusal {
    pub(crate) part: Part,
    pub(crate) number: u8,
    pub(crate) place: usize,
}

// An element: its identifier and its contents as a number. Only an IMSI has a count of digits.
#[derive(Clone, Copy, Debug, Default, PartialEq, Eq)]
pub(crate) struct Found {
    pub(crate) identifier: u8,
    pub(crate) digits: Option<u8>,
    pub(crate) value: u64,
}

// A message: its type and its elements in their order.
#[derive(Drop, PartialEq)]
pub(crate) struct Content {
    pub(crate) type_octet: u8,
    elements: ArrayVec<Found, ROOM>,
}

impl Content {
    pub(crate) fn new(type_octet: u8) -> Content {
        Content {
            type_octet,
            elements: ArrayVec::new(),
        }
    }

    // Where an element finds no room, there are too many already.
    pub(crate) fn add(&mut self, found: Found) {
        let _ = self.elements.try_push(found);
    }
}

// What a frame says in front of its message.
#[derive(Clone, Copy, Debug, PartialEq, Eq)]
pub(crate) struct Header {
    pub(crate) source: u8,
    pub(crate) destination: u8,
    pub(crate) stamp: u32,
    // 0 for none, as the octets have it
    pub(crate) answers: u32,
}

// A message, behind the header of its frame if it is in one.
#[derive(Drop, PartialEq)]
pub(crate) struct Answer {
    pub(crate) header: Option<Header>,
    pub(crate) content: Content,
}

impl fmt::Display for Found {
    fn fmt<W: fmt::Write>(&self, f: &mut fmt::Formatter<W>) -> fmt::Result {
        let Found {
            identifier,
            digits,
            value,
        } = *self;
        match digits {
            Some(digits) => write!(
                f,
                "element {identifier:02X} = {value} with digit count {digits}"
            ),
            None => write!(f, "element {identifier:02X} = hexadecimal {value:X}"),
        }
    }
}

impl fmt::Display for Content {
    fn fmt<W: fmt::Write>(&self, f: &mut fmt::Formatter<W>) -> fmt::Result {
        let count = self.elements.len();
        write!(f, "type {:02X} with {count} elements", self.type_octet)?;
        for found in &self.elements {
            write!(f, ", {found}")?;
        }
        Ok(())
    }
}

impl fmt::Display for Header {
    fn fmt<W: fmt::Write>(&self, f: &mut fmt::Formatter<W>) -> fmt::Result {
        let Header {
            source,
            destination,
            stamp,
            answers,
        } = *self;
        write!(
            f,
            "from {source} to {destination}, stamp {stamp}, answers {answers}"
        )
    }
}

impl fmt::Display for Part {
    fn fmt<W: fmt::Write>(&self, f: &mut fmt::Formatter<W>) -> fmt::Result {
        f.write_str(match self {
            Part::Frame => "frame",
            Part::Message => "message",
        })
    }
}

impl fmt::Display for Refusal {
    fn fmt<W: fmt::Write>(&self, f: &mut fmt::Formatter<W>) -> fmt::Result {
        let Refusal {
            part,
            number,
            place,
        } = *self;
        write!(f, "fault {number} of the {part} at place {place}")
    }
}

impl fmt::Display for Answer {
    fn fmt<W: fmt::Write>(&self, f: &mut fmt::Formatter<W>) -> fmt::Result {
        if let Some(header) = self.header {
            write!(f, "{header}, ")?;
        }
        write!(f, "{}", self.content)
    }
}

// What a reader answered, or why it refused, as a person reads it.
#[derive(Clone, Copy, PartialEq)]
pub(crate) struct Shown<'a>(pub(crate) Result<&'a Answer, &'a Refusal>);

impl fmt::Display for Shown<'_> {
    fn fmt<W: fmt::Write>(&self, f: &mut fmt::Formatter<W>) -> fmt::Result {
        match self.0 {
            Ok(answer) => write!(f, "{answer}"),
            Err(refusal) => write!(f, "{refusal}"),
        }
    }
}
