// The mailbox: a carrier in order that keeps the frame of highest stamp of each
// pair of nodes, and gives it once.
#![tactic(auto)]

pub mod carrying;
pub mod mailbox;
mod reading;
pub mod slot;
