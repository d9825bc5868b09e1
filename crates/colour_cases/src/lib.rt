// Cases of the replayed list on colour: `derive_params` and `predict_block`. Each is made again from its line, and held against what the Rust gave.
#![tactic(auto)]

pub mod derived;
pub mod predicted;
mod window;
