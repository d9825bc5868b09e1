// A plane as a picture of letters, the original's and the rebuilt one side by side. The ends of the ramp are the original's smallest and largest
// sample.
#![tactic(auto)]

mod letters;
pub mod measure;

use greymap::Greymap;
use letters::Letters;
use still_page::print;

// The picture of a plane, by its name.
pub fn print_picture(rt: &impl Print, name: &str, g: Greymap, original: &[f32], rebuilt: &[f32]) {
    let range = measure::range_of(original);
    print::say(
        rt,
        format_args!(
            "\n     {name} from {} to {}, the original and rebuilt\n",
            range.least, range.most
        ),
    );
    let width = g.width();
    for line in 0..4 * usize::from(g.down) {
        let line_of = |plane| Letters {
            plane,
            from: 2 * width * line,
            width,
            range,
        };
        let _ = print!(rt; "     ");
        let _ = print!(rt; "{}", line_of(original));
        let _ = print!(rt; "   ");
        let _ = print!(rt; "{}", line_of(rebuilt));
        let _ = println!(rt;);
    }
}
