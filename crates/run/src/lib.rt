// Demand 3 about the C entries: specs/Run.antt states it, proofs/Run.antt shows it. No code.
#![tactic(auto)]
