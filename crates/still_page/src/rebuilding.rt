// What came of the picture rebuilt from nothing: a line for each order.
use crate::print;
use crate::print::{Column, right};
use greymap::Greymap;
use numbers::answer::Answer;
use rebuild::Rebuilt;

pub fn print_heading(rt: &impl Print) {
    let _ = println!(rt; "\n     rebuilt from nothing     jobs done   samples equal");
}

// How many of how many.
pub fn print_part(rt: &impl Print, n: Column, all: Column) {
    print::say(rt, format_args!("{n} of {all}"));
}

// A refusal of the whole run, if it is one.
pub fn print_refusal(rt: &impl Print, answer: Answer) {
    if let Err(refusal) = answer {
        print::say(rt, format_args!("  refused with {}", refusal.number()));
    }
}

// What a run in an order, by its name, gave.
pub fn print_rebuilt(rt: &impl Print, name: &str, g: Greymap, run: Rebuilt) {
    let _ = print!(rt; "     {name:<20}");
    print_part(rt, right(run.done as u64, 8), right(g.jobs() as u64, 2));
    print_part(rt, right(run.equal as u64, 8), right(g.area() as u64, 4));
    print_refusal(rt, run.answer);
    let _ = println!(rt;);
}
