// No code: definitions (specs/) and laws (proofs/) on lists that a loop fills, on blocks of rows, and on constant tables.
#![tactic(auto)]
