// The timed calls on the two tables as definitions; no code.
#![tactic(auto)]
