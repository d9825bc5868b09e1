// The page's table: a line for each predictor, with how many blocks it was the nearest to, and how far off it was in all of them.
use crate::legend::LINES;
use crate::print::right;
use crate::{legend, print};
use picture_blocks::candidate::{Candidate, Choice};

// The most blocks that a still has.
const BLOCKS: usize = 64;

// Whether a block took a line's predictor.
fn is_of(choice: &Choice, line: usize) -> bool {
    choice.number < Candidate::COUNT && legend::line_of(choice.number) == line
}

// How many blocks took it.
fn blocks_of(choices: &[Choice], line: usize) -> usize {
    choices
        .iter()
        .take(BLOCKS)
        .filter(|choice| is_of(choice, line))
        .count()
}

// The errors of all of them together.
fn error_of(choices: &[Choice], line: usize) -> u64 {
    choices
        .iter()
        .take(BLOCKS)
        .filter(|choice| is_of(choice, line))
        .fold(0, |sum, choice| sum.saturating_add(u64::from(choice.error)))
}

pub fn print_table(rt: &impl Print, choices: &[Choice]) {
    let _ = println!(rt; "     nearest predictor       blocks    error");
    for (line, (letter, name)) in LINES.iter().enumerate() {
        let _ = print!(rt; "  {letter}  ");
        let _ = print!(rt; "{name:<24}");
        let blocks = right(blocks_of(choices, line) as u64, 6);
        let error = right(error_of(choices, line), 9);
        print::say(rt, format_args!("{blocks}{error}\n"));
    }
}
