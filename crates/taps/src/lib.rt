// One sample between the entries of an edge, and the tables of its taps (document 01, Directions).
#![tactic(auto)]

mod f2;
mod f4;
pub mod table;
pub mod value;
