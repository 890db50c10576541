// From a frame's record to its bytes, all of them or none.
#![tactic(auto)]

mod emitting;
pub mod numbers;
pub mod writing;
