// What a poll comes to name over any messages: theorems alone, no code.
#![tactic(auto)]
