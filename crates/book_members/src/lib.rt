// The rows of a member book: who is live, which slots are free, and when the rows are within rule.
#![tactic(auto)]

pub mod census;
pub mod member;
pub mod rows;
pub mod rules;
