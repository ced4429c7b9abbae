// The queue: a carrier of up to 512 frames that gives each node its oldest first.
#![tactic(auto)]

pub mod carrying;
pub mod queue;
