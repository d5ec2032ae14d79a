// Every frame of a trial flight is accepted by the telemetry reader. specs/Accepted.antt states it, proofs/Accepted.antt
// shows it. No code.
#![tactic(auto)]
