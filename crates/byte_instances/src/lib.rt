// Small instances on bytes: of single frames (specs/Frames.antt), of what `decide` writes (specs/Written.antt) and of what single calls answer
// (specs/Answers.antt). No code.
#![tactic(auto)]
