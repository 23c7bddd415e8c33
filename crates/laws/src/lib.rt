// Notions that statements of several crates use stand in specs/, lemmas that several crates cite in proofs/. There is no code.
#![tactic(auto)]
