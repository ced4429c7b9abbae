// The rules that octets can break, each with its number.
use crate::answer::{Part, Refusal};
use std::fmt;

#[derive(Clone, Copy, Debug, PartialEq, Eq)]
pub(crate) enum Rule {
    FrameSize = 20,
    Nodes = 21,
    Stamp = 22,
    MessageType = 23,
    Identifier = 24,
    Length = 25,
    Contents = 26,
    Trailing = 27,
}

impl Rule {
    pub(crate) const ALL: [Rule; 8] = [
        Rule::FrameSize,
        Rule::Nodes,
        Rule::Stamp,
        Rule::MessageType,
        Rule::Identifier,
        Rule::Length,
        Rule::Contents,
        Rule::Trailing,
    ];

    fn part(self) -> Part {
        match self {
            Rule::FrameSize | Rule::Nodes | Rule::Stamp => Part::Frame,
            _ => Part::Message,
        }
    }

    // The refusal of octets that break this rule at this place.
    pub(crate) fn at(self, place: usize) -> Refusal {
        Refusal {
            part: self.part(),
            number: self as u8,
            place,
        }
    }
}

// What is wrong with octets that break it.
impl fmt::Display for Rule {
    fn fmt<W: fmt::Write>(&self, f: &mut fmt::Formatter<W>) -> fmt::Result {
        f.write_str(match self {
            Rule::FrameSize => "not 11 to 64 octets",
            Rule::Nodes => "nodes unlawful or equal",
            Rule::Stamp => "stamp 0",
            Rule::MessageType => "unknown message type",
            Rule::Identifier => "wrong identifier",
            Rule::Length => "forbidden length",
            Rule::Contents => "unlawful contents",
            Rule::Trailing => "octets after the last element",
        })
    }
}
