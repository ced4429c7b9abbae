// One site as its tables and its carrier show it: the calls that can be made there, and what holds after any
// of them.
#![tactic(auto)]

pub mod call;
