// One row of a block of smooth, smooth_v or smooth_h, in natural numbers (document 01, The predictors).
#![tactic(auto)]

pub mod across;
pub mod down;
pub mod quad;
