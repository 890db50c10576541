// The beacon and the short beacon: the record of each, where its fields stand, its rules, what refuses its bytes and what writes it; and what is heard of
// either.
#![tactic(auto)]

pub mod beacon;
pub mod either;
pub mod short;
