// The mark: which node serves a mobile at the other end, and how surely.
ghost use Rattle.std.specs.Prelude.{◌≡◌};
ghost use Rattle.station.specs.Marks.{doubted, node_in};

use std::fmt;

// `N` is the kind of the other end's number: a VLR's in the SGSN's table, the SGSN's in a VLR's.
// An enum whose cases carry the number, the same in both tables: the three marks are what planners read.
#[derive(Clone, Copy, Debug, PartialEq, Eq)]
pub enum Mark<N> {
    // no node
    None,
    // that node has the mobile marked here too
    Confirmed(N),
    // that node was the last one heard of
    Unsure(N),
}

impl<N: Copy> Mark<N> {
    // What was sure is sure no more.
    pub fn doubted(self) -> Mark<N>
        ensures { result ≡ doubted self }
    {
        match self {
            Mark::Confirmed(node) => Mark::Unsure(node),
            other => other,
        }
    }

    // The node that the mark names.
    pub fn node(self) -> Option<N>
        ensures { result ≡ node_in self }
    {
        match self {
            Mark::None => None,
            Mark::Confirmed(node) | Mark::Unsure(node) => Some(node),
        }
    }
}

impl<N: fmt::Display> fmt::Display for Mark<N> {
    fn fmt<W: fmt::Write>(&self, f: &mut fmt::Formatter<W>) -> fmt::Result {
        match self {
            Mark::None => f.write_str("None"),
            Mark::Confirmed(node) => write!(f, "Confirmed with {node}"),
            Mark::Unsure(node) => write!(f, "Unsure with {node}"),
        }
    }
}
