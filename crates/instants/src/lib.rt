// The instants of a state and the stamps of telemetry, and others in their place (specs/Retimed.antt): no code.
#![tactic(auto)]
