// Document 02, L7: two steps on different clocks (specs/Alike.antt), both clocks over a list of steps (specs/Both.antt), the step of the one on the other (specs/Marked.antt): no code.
#![tactic(auto)]
