// The C boundary: what every unit's firmware calls for its state, its clock, the beacon that it follows and its poll, with numbers and byte buffers.
// A call returns 0 or document 01's refusal number; what it answers goes to buffers and out parameters, which a refusal leaves as they were.
// Kept: numbers for answers, since these are what C links.
#![tactic(auto)]

mod answers;
pub mod clock_calls;
pub mod follow_calls;
pub mod poll_calls;
pub mod state_calls;
