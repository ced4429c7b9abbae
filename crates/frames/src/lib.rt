// Frames: two nodes, two stamps and one message, as one datagram carries them.
#![tactic(auto)]

pub mod frame;
pub mod reading;
pub mod writing;
