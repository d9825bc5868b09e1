// No code: the zones as document 01 has them (specs/), and their laws, over the code's lists too (proofs/).
#![tactic(auto)]
