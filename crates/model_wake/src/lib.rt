// When the next merge is due, as definitions over levels, with the claims of request S-5 proved; no code.
#![tactic(auto)]
