// Refusal 23 of an order (document 01, Refusal numbers): no clashing pair is turned round.
#![tactic(auto)]

mod bound_lists;
mod hull;
pub mod kept;
mod window;
