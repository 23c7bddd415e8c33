// The large theorems, and the table of document 01's examples, stand in specs/ and proofs/. There is no code.
#![tactic(auto)]
