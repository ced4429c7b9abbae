// What carries frames between nodes: its meaning, and the promise to give frames in order.
#![tactic(auto)]

pub mod carrier;
pub mod datagram;
pub mod in_order;
mod making;
pub mod route;
