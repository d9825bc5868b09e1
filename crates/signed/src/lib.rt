// No code: definitions (specs/) and laws (proofs/) on signed numbers, which every other crate cites.
#![tactic(auto)]
