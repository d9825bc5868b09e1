// Rows of samples of a colour prediction (document 01, Colour parameters): what is worked out once for a block, a sample, and rows of samples.
#![tactic(auto)]

pub mod mix;
pub mod row;
mod value;
