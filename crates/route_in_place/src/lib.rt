// A table judged, asked and changed where its bytes lie, with no copy of it.
#![tactic(auto)]

pub mod changing;
pub mod finding;
pub mod judging;
pub mod standing;
