// Laws of requests that are kept once they are raised (specs/), with no code of their own.
#![tactic(auto)]
