// No code: document 01's numbers on paper, as one list (specs/), and the one claim that the definitions give them (proofs/).
#![tactic(auto)]
