// The calls of `c_book` as C links them: each under its own name, with its contract again.
// Kept: numbers for answers, since these are what C links.
#![tactic(auto)]

pub mod book_calls;
pub mod image_calls;
pub mod plan_calls;
