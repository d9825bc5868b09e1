// Numbers that name something (docs/NUMBERS.md), each once: sizes, depths, colour directions, answers, and the limits of planes and plans. Those that the
// words of a job's row hold stand in `row_words`.
#![tactic(auto)]

pub mod answer;
pub mod colour;
pub mod depth;
pub mod plan;
pub mod plane;
pub mod size;
