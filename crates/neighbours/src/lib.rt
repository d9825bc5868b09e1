// The samples of a block's neighbours (document 01, From samples to edges): tested, 8, and read into both edges and the corner.
#![tactic(auto)]

pub mod fill;
pub mod reads;
