// The nine colour sums over the counted places of a reference window (document 01, Colour parameters).
#![tactic(auto)]

pub mod places;
pub mod window;
