// Numbers that the words of a tower's row hold beside those of the first library's (document 02, request (v); docs/NUMBERS.md): the places of words 16
// to 31, the number of the colour mode, and the numbers of the planes.
#![tactic(auto)]

pub mod mode;
pub mod plane;
pub mod word;
