// The rows of Paeth (document 01, The predictors).
#![tactic(auto)]

pub mod row;
mod value;
