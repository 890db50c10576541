// The calls of `c_sheet` as C links them: each under its own name, with its contract again.
// Kept: numbers for answers, since these are what C links.
#![tactic(auto)]

pub mod sheet_calls;
