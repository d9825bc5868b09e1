// Numbers that the words of a job's row hold (docs/NUMBERS.md), each once: the words' places, modes, directions, flag bits.
#![tactic(auto)]

pub mod dir;
pub mod flag;
pub mod mode;
pub mod word;
