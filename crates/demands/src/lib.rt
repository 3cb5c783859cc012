// The three demands of document 01 on every word of both tables; no code.
#![tactic(auto)]
