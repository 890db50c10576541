// Beacons that a unit passes on, by a table by value or in bytes.
#![tactic(auto)]

mod copying;
pub mod forwarding;
