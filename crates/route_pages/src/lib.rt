// The pages of a unit's own routing updates, from a table by value and from one that lies in bytes.
#![tactic(auto)]

pub mod paging;
mod rows;
pub mod stored;
mod writing;
