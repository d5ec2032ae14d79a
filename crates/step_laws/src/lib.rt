// Laws of a whole step (specs/Laws.antt), with no code of their own.
#![tactic(auto)]
