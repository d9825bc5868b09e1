// One job of a tower's plan (document 02, request (v)): its row of thirty-two words is tested, but for 8 and 14, and read into a job.
#![tactic(auto)]

pub mod base;
pub mod colour;
pub mod row;
pub mod rules;
mod tests;
pub mod tower;
