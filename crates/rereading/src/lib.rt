// What the edited bulletin reads to: document 02, R-1. No code.
#![tactic(auto)]
