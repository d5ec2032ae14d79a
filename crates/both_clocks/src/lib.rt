// Both clocks after a state is carried over: a claim about every list of pairs of calls (specs/Claim.antt), with no code of its own.
#![tactic(auto)]
