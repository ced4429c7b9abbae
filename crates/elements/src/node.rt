// Node numbers: one plain kind for frames, and one kind each for SGSN and VLR.
ghost use Rattle.std.specs.Prelude.{◌≡◌, ◌≤◌};
ghost use Rattle.elements.specs.Nodes.{lawful_node};

use std::fmt;

// A node's number as a frame carries it. Any number can be held; `is_lawful` says whether a node can have it.
#[derive(Clone, Copy, Debug, PartialEq, Eq, Hash, PartialOrd, Ord)]
pub struct NodeNumber {
    pub number: u8,
}

impl NodeNumber {
    pub fn is_lawful(self) -> bool
        ensures { result ≡ lawful_node self }
    {
        1 <= self.number && self.number <= 254
    }
}

impl fmt::Display for NodeNumber {
    fn fmt<W: fmt::Write>(&self, f: &mut fmt::Formatter<W>) -> fmt::Result {
        write!(f, "{}", self.number)
    }
}

// The number of a node that is an SGSN.
#[derive(Clone, Copy, Debug, PartialEq, Eq, Hash)]
pub struct SgsnNumber {
    pub node: NodeNumber,
}

impl fmt::Display for SgsnNumber {
    fn fmt<W: fmt::Write>(&self, f: &mut fmt::Formatter<W>) -> fmt::Result {
        write!(f, "SGSN {}", self.node)
    }
}

// The number of a node that is a VLR. Never taken where an SGSN's number is meant, nor the other way round.
#[derive(Clone, Copy, Debug, PartialEq, Eq, Hash)]
pub struct VlrNumber {
    pub node: NodeNumber,
}

impl fmt::Display for VlrNumber {
    fn fmt<W: fmt::Write>(&self, f: &mut fmt::Formatter<W>) -> fmt::Result {
        write!(f, "VLR {}", self.node)
    }
}
