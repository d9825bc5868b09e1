// The edge filter of directions (document 01, Directions): an edge as a list with its ends repeated, filtered.
#![tactic(auto)]

pub mod edge;
