// Sheets: the check of a proposed reuse of data slots, over the caller's bytes.
#![tactic(auto)]

pub mod checking;
mod judging;
mod neighbours;
mod refusing;
pub mod rows;
mod sheet;
