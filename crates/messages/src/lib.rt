// The twelve messages of the Gs interface: what they say, and how they are read and written.
#![tactic(auto)]

pub mod kind;
pub mod message;
mod put;
pub mod reading;
pub mod writing;
