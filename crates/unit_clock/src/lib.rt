// How far a unit's time is from the network's, and the step that brings it nearer.
#![tactic(auto)]

mod drifts;
pub mod steps;
