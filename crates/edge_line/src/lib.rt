// Edges along a line of a plane's samples (document 01, From samples to edges): a run is tested, and read into an edge with its repeats.
#![tactic(auto)]

pub mod edge;
pub mod run;
