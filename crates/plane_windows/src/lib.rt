// Rectangles of a plane: tested, read into a list of rows of 256 entries, and written (document 02, request (v): the windows and the block of a job).
#![tactic(auto)]

pub mod patch;
pub mod range;
pub mod read;
pub mod write;
