// Histories of books: what every call on a member book keeps, and what holds over any sequence of calls. There is no code here, only theorems.
#![tactic(auto)]
