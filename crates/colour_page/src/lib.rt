// What the program `still` prints of a colour still, part by part. Where a write fails, the page goes on with what follows.
#![tactic(auto)]

pub mod map;
pub mod runs;
pub mod table;

use greymap::Greymap;
use still_page::print;

pub fn print_heading(rt: &impl Print, name: &str, g: Greymap) {
    print::say(rt, format_args!("Colour still {name}\n"));
    print::say(
        rt,
        format_args!(
            "{} x {} samples of {} bits in three planes, {} blocks of 8 x 8\n\n",
            g.width(),
            g.height(),
            g.d,
            tower_blocks::jobs(g)
        ),
    );
}
