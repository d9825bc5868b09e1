// Words of bytes, a block's check, and the room for what is written: what reading and writing a plan's blocks share (document 02, request (iv)).
#![tactic(auto)]

pub mod bytes;
pub mod check;
pub mod room;
