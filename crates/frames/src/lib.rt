// The ten kinds of frames as one enum, and the layout of each by its type.
#![tactic(auto)]

pub mod answers;
pub mod layouts;
