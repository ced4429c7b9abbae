// The directory: records in rising order of their mobiles' numbers, over a slice of places.
#![tactic(auto)]

pub mod record;
mod search;
pub mod table;
