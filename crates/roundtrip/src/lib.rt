// The round trip of a block: theorems over the rules of codes. No code.
#![tactic(auto)]
