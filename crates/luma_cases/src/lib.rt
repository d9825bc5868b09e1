// Cases of the replayed list on luma: `build_refs` and the direct predictor calls. Each is made again from its line, and held against what the Rust gave.
#![tactic(auto)]

pub mod predictors;
pub mod refs;
