// What an SGSN keeps of one of its VLRs.
use elements::node::VlrNumber;
use station::row::Row;

#[derive(Clone, Copy, Debug, PartialEq, Eq)]
pub struct Peer {
    pub vlr: VlrNumber,
    pub row: Row,
}
