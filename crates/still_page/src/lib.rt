// What the program `still` prints: its page, part by part. Where a write fails, the page goes on with what follows.
#![tactic(auto)]

mod heading;
mod legend;
pub mod map;
pub mod print;
pub mod rebuilding;
mod table;

use greymap::Greymap;
use picture_blocks::candidate::Choice;

// The page down to the heading of what was rebuilt.
pub fn print_top(rt: &impl Print, name: &str, g: Greymap, choices: &[Choice]) {
    heading::print_heading(rt, name, g);
    table::print_table(rt, choices);
    rebuilding::print_heading(rt);
}
