// No code: the samples that a tower's job reads and writes (specs/), and the law that they are those of its rectangles (proofs/).
#![tactic(auto)]
