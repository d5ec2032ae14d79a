// Document 01's table of proved instances (Table.antt), and small ones that a definition bent as its code is cannot pass (Small.antt): specs/ states them, proofs/ shows them. No code.
#![tactic(auto)]
