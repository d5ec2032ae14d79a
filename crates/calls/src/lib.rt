// What a call of a C entry returns and leaves in its buffers (specs/Entry.antt, specs/Widen.antt), over the forms of a state's frame (specs/Form.antt): no code.
#![tactic(auto)]
