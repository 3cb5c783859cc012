// The words of the two tables as definitions, with their laws; no code.
#![tactic(auto)]
