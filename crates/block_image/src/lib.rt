// The numbers of a file of 512-byte blocks (document 02, requests (iv) and (v)). No other code: the bytes of a plan, and what is read of bytes, are in
// specs/.
#![tactic(auto)]

pub mod format;
