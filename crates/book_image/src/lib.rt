// The stored form of a book, written at a time and restored at a time.
#![tactic(auto)]

pub mod restoring;
pub mod writing;
