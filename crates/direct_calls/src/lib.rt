// The tests of a direct predictor call (document 01, Refusal numbers): 1, 2, 3, 9, 8. Rule 3 cannot be broken where no mode is given.
#![tactic(auto)]

pub mod direct;
pub mod range;
