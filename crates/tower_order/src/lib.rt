// Refusal 23 of an order of a tower's plan (document 02, request (v)): no clashing pair is turned round.
#![tactic(auto)]

mod fill;
pub mod kept;
mod store;
