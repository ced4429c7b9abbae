// What a frame says.
use elements::node::NodeNumber;
use messages::message::Message;

// Source and destination are plain node numbers, since either end may be an SGSN or a VLR. `answers` is the
// stamp of the frame that this one answers, 0 for none: the very number that the octets have. An Option of a
// number that is not 0 would be made of it and back at each reading and writing, and say no more.
#[derive(Clone, Copy, Debug, PartialEq, Eq)]
pub struct Frame {
    pub source: NodeNumber,
    pub destination: NodeNumber,
    pub stamp: u32,
    pub answers: u32,
    pub message: Message,
}

// What stands in front of the message, while that is not read yet. Not a part of `Frame`, whose nodes and
// stamps are named all over: only the reader and carriers have them without a message.
#[derive(Clone, Copy, Debug, PartialEq, Eq)]
pub struct Header {
    pub source: NodeNumber,
    pub destination: NodeNumber,
    pub stamp: u32,
    pub answers: u32,
}
