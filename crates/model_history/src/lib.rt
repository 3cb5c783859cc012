// What owed is, over a list of calls: definitions and theorems, no code.
#![tactic(auto)]
