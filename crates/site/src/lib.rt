// A site: one SGSN, its voice registers, and what carries frames between them.
#![tactic(auto)]

pub mod by_hand;
pub mod making;
pub mod registers;
pub mod site;
