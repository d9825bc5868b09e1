// Zone 2 over its two lists of entries (document 01, Directions). The definitions and the laws of all three zones stand in `zone_spec`.
#![tactic(auto)]

mod split;
mod walk;
pub mod z2;
