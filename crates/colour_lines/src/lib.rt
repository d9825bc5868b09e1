// Lines of places of a reference window, tested and added (document 01, Colour parameters): place by place, or the fast way.
#![tactic(auto)]

mod fast;
pub mod lines;
pub mod long;
mod short;
