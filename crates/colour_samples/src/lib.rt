// One colour sample and what is taken of it (document 01, Colour parameters): its terms, whether it is in range, and the nine sums with it.
#![tactic(auto)]

pub mod nine;
pub mod sample;
pub mod seen;
pub mod totals;
