// The kernels of the edge filter, over a part of a list (document 01, Directions).
#![tactic(auto)]

pub mod blur;
