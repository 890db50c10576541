// A book as text, a line per member with a letter per slot.
#![tactic(auto)]

pub mod drawing;
mod text;
pub mod viewing;
