// What a table, by value or in bytes, does with a data frame: it is handed back, or goes on to the next hop.
#![tactic(auto)]

pub mod relaying;
