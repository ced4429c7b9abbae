// A watched carrier: it carries as another one does, and a log of it can be read.
#![tactic(auto)]

pub mod carrying;
pub mod log;
