// Where a frame comes from, and where it goes.
use elements::node::NodeNumber;

// From a node to a node.
#[derive(Clone, Copy, Debug, PartialEq, Eq)]
pub struct Route {
    pub source: NodeNumber,
    pub destination: NodeNumber,
}
