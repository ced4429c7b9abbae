// The gate: stands over any carrier and makes it in order.
#![tactic(auto)]

pub mod carrying;
mod noting;
pub mod pairs;
