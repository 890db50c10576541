// The manager's side of the C boundary: the plan of a site, the member book, schedules and the stored image, with numbers and byte buffers.
// A call returns 0 or document 01's refusal number; what it answers goes to buffers and out parameters, which a refusal leaves as they were.
// Kept: numbers for answers, and a call by its name for each change of a book, since these are what C links.
#![tactic(auto)]

pub mod book_calls;
pub mod image_calls;
pub mod plan_calls;
