// No code: what a call answers when its rules are tested in order, and what lent memory holds then (specs/), with their laws (proofs/).
#![tactic(auto)]
