// Where a block stands, with which neighbours, and what is tested of it whoever calls: 20, 1, 2, 4, 5 and 6 (document 01, From samples to edges,
// Refusal numbers). `build_refs` and a job share these.
#![tactic(auto)]

pub mod answer;
pub mod rules;
pub mod spec;
