// Histories of tables: what holds over any sequence of calls on a table of routes. There is no code here, only theorems.
#![tactic(auto)]
