// The C boundary of whoever plans a large site: the check of a sheet, with byte buffers.
// A call returns 0 or document 01's refusal number; what it answers goes to out parameters, which a refusal leaves as they were.
// Kept: numbers for answers, since these are what C links.
#![tactic(auto)]

pub mod sheet_calls;
