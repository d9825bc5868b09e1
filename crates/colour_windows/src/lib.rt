// The windows of a colour job (document 02, request (v)): their samples are tested, and those that are used are read into two lists.
#![tactic(auto)]

pub mod chroma;
pub mod luma;
mod places;
