// Demand 3 on the bytes of a book: theorems over the rule of every call. No code.
#![tactic(auto)]
