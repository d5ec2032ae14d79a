// The order of floats, for the proofs: no code.
#![tactic(auto)]
