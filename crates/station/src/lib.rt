// What an SGSN and a VLR have in common: marks, denials, recovery, how frames are sent and taken, and time.
#![tactic(auto)]

pub mod denial;
pub mod mark;
pub mod receiving;
pub mod row;
pub mod sending;
pub mod ticking;
pub mod time;
