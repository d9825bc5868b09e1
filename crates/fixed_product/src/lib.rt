// The fixed-point product of the colour parameters (document 01, Colour parameters), `mul_fixed32_adapt` of mhccp.rs. Nothing wraps in it.
#![tactic(auto)]

pub mod product;
