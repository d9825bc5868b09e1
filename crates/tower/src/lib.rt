// What C, C++ and Rust programs link as the second library, for a tower with one luma and two chroma planes (document 02, request (v)):
// include/latchtower.h declares these functions. Each takes any input, returns 0 or a refusal's number, and changes nothing that it was lent when it
// refuses.
#![tactic(auto)]

pub mod blocks;
pub mod jobs;
