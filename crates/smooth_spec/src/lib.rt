// No code: the smooth predictors as document 01 has them (The predictors; specs/), and the law that the rows work out these samples (proofs/).
#![tactic(auto)]
