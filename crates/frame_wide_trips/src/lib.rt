// Laws of the frames of kinds 9 and 10 (specs/Claim.antt), with no code of its own.
#![tactic(auto)]
