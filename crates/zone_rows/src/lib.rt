// Rows of samples along one list of entries, as zones 1 and 3 take them, and a strip of four rows (document 01, Directions).
#![tactic(auto)]

pub mod spread;
pub mod z1;
pub mod z3;
