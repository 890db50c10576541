// The C boundary of a unit that keeps a table of routes: looked up in, learned from updates, and used to pass frames on.
// A call returns 0 or document 01's refusal number; what it answers goes to buffers and out parameters, which a refusal leaves as they were.
// Kept: numbers for answers, since these are what C links.
#![tactic(auto)]

pub mod relay_calls;
pub mod table_calls;
pub mod update_calls;
