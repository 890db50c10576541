// The entries of a routing update, walked one after the other over the caller's bytes.
#![tactic(auto)]

pub mod reader;
pub mod walking;
