// The calls of `c_unit` as C links them: each under its own name, with its contract again.
// Kept: numbers for answers, since these are what C links.
#![tactic(auto)]

pub mod clock_calls;
pub mod follow_calls;
pub mod poll_calls;
pub mod state_calls;
