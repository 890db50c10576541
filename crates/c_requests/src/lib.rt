// The C boundary of a manager that lets units in: requests to join and requests for slots, answered over its member book.
// A call returns 0 or document 01's refusal number; what it answers goes to buffers and out parameters, which a refusal leaves as they were.
// Kept: numbers for answers, since these are what C links.
#![tactic(auto)]

pub mod request_calls;
