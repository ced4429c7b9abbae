// An SGSN: what it keeps of each mobile and of each of its VLRs, its calls, and what a frame from a VLR does.
#![tactic(auto)]

pub mod awaiting;
pub mod call;
pub mod delivering;
pub mod detaching;
pub mod enrolling;
mod keeping;
pub mod making;
pub mod peer;
mod peers;
pub mod reading;
pub mod recovering;
pub mod reply;
pub mod requesting;
pub mod settling;
pub mod sgsn;
