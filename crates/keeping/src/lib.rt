// Every step of a book keeps it sound: theorems over the rules of layout. No code.
#![tactic(auto)]
