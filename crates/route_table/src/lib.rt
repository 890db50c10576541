// The table of a unit, by value; what it holds, what a lookup answers, and how a unit is forgotten.
#![tactic(auto)]

pub mod row;
pub mod standing;
pub mod table;
