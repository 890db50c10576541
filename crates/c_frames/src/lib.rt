// The C boundary: what every unit's firmware calls for frames, with numbers and byte buffers.
// A call returns 0 or document 01's refusal number; what it answers goes to buffers and out parameters, which a refusal leaves as they were.
// Kept: numbers for answers, since these are what C links.
#![tactic(auto)]

pub mod entry_calls;
pub mod frame_calls;
