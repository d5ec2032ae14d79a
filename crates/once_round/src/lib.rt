// The star of document 02's L5, and the order of its refusal: specs/Star.antt states them, proofs/Star.antt shows them. No code.
#![tactic(auto)]
