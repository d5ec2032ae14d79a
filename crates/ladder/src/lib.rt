// Demand 3 of the supervisor: a claim about every list of steps (specs/Claim.antt), with no code of its own.
#![tactic(auto)]
