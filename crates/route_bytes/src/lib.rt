// A table as the bytes that a C caller keeps for us between two calls.
#![tactic(auto)]

pub mod tables;
