// What rc_ok can change where rc_required is false (specs/), with no code of its own.
#![tactic(auto)]
