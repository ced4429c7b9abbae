// The slip carrier: a queue whose script says how each take goes wrong.
#![tactic(auto)]

pub mod carrying;
pub mod newest;
pub mod script;
