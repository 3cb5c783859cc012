// General laws of lists; no code.
#![tactic(auto)]
