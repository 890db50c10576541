// The manager's member book, by value: who may send in which slots.
#![tactic(auto)]

pub mod book;
pub mod schedule;
mod visits;
