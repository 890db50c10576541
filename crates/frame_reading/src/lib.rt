// From bytes to a frame, or to why they are none.
#![tactic(auto)]

pub mod numbers;
pub mod reading;
