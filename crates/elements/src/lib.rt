// What a message is made of: faults, node numbers, codes, and the twelve kinds of element.
#![tactic(auto)]

pub mod absent;
pub mod area;
pub mod code;
pub mod element;
pub mod fault;
pub mod node;
pub mod reader;
