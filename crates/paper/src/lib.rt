// Document 01's examples that are to be proved, as one table in specs/. There is no code here.
#![tactic(auto)]
