// A voice register (VLR): what it keeps of each mobile, and what a frame from its SGSN does to that.
#![tactic(auto)]

pub mod call;
pub mod delivering;
pub mod enrolling;
pub mod making;
pub mod moves;
pub mod paging;
pub mod record;
pub mod recovering;
pub mod vlr;
