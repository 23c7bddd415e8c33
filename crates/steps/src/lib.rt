// The book of document 01, its calls, and demand 3 of them: rules and theorems. No code.
#![tactic(auto)]
