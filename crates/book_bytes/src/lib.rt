// A book as bytes of a fixed length, which a C caller keeps for us between two calls.
#![tactic(auto)]

pub mod books;
