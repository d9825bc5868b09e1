// One job of a plan (document 01, Ranges and numbers that name things; Refusal numbers): its row of words is tested by 1 to 7 and read into a job.
#![tactic(auto)]

pub mod job;
mod mode;
pub mod row;
pub mod rules;
