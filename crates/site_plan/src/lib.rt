// The plan of a site, its bytes, where the regions of its slots begin, and what a unit does in each slot.
#![tactic(auto)]

mod lengths;
mod names;
pub mod plan;
pub mod plan_bytes;
mod regions;
pub mod schedules;
