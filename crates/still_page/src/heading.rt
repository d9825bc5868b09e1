// The page's heading: the file's name, and the picture's sizes.
use crate::print;
use greymap::Greymap;

pub fn print_heading(rt: &impl Print, name: &str, g: Greymap) {
    print::say(rt, format_args!("Finish-line still {name}\n"));
    print::say(
        rt,
        format_args!(
            "{} x {} samples of {} bits, {} blocks of 8 x 8\n\n",
            g.width(),
            g.height(),
            g.d,
            g.jobs()
        ),
    );
}
