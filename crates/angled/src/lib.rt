// The zones as a direction is set, each with its edges filtered (document 01, Directions).
#![tactic(auto)]

mod ready;
pub mod zone1;
pub mod zone2;
pub mod zone3;
