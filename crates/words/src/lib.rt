// What the programs share: octets in hexadecimal, frames in words, how they count, and why they do not follow
// a line.
#![tactic(auto)]

pub mod counting;
pub mod element;
pub mod frame;
pub mod hexadecimal;
pub mod in_words;
pub mod line;
pub mod line_error;
pub mod message;
