// Refusal 23 of an order (document 01, Refusal numbers) by a table of what each row writes and reads: no clashing pair is turned round. Nothing here
// knows what a row does.
#![tactic(auto)]

mod bounds;
mod columns;
pub mod kept;
mod window;
