// No code: a picture of three planes, and rectangles of its planes (specs/); and that the test of a clash by rectangles holds for them too (proofs/).
#![tactic(auto)]
