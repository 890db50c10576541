// The calls of `c_routes` as C links them: each under its own name, with its contract again.
// Kept: numbers for answers, since these are what C links.
#![tactic(auto)]

pub mod relay_calls;
pub mod table_calls;
pub mod update_calls;
