// What an SGSN keeps of a mobile, and each move of that.
#![tactic(auto)]

pub mod answering;
pub mod class;
pub mod context;
pub mod detaching;
pub mod errand;
pub mod kind;
pub mod paging;
pub mod requesting;
pub mod ticking;
