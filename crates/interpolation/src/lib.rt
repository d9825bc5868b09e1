// Rows of samples between the entries of an edge (document 01, Directions).
#![tactic(auto)]

pub mod between;
mod chroma;
mod luma;
