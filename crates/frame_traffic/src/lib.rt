// Data and routing updates, each with its record, where its fields stand, its rules, what refuses its bytes, what writes it, and its variable part.
#![tactic(auto)]

pub mod data_frame;
pub mod entry;
pub mod update;
