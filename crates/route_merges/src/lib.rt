// What a table learns from the routing updates of its neighbours.
#![tactic(auto)]

pub mod candidate;
pub mod learning;
pub mod merging;
mod steps;
pub mod stored;
