// When each reason is filed (specs/Reasons.antt), with no code of its own.
#![tactic(auto)]
