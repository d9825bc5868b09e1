// The block of a direction with its delta (document 01, Ranges and numbers that name things; Directions).
ghost use Rattle.std.specs.Prelude.{◌≡◌, true, ◌≤◌, nat_abs, length};
ghost use Rattle.numbers.specs.Depth.{is_depth, most};
ghost use Rattle.row_words.specs.Dir.{angle_of};
ghost use Rattle.lists.specs.Block.{block};
ghost use Rattle.direct_calls.specs.Given.{Given};
ghost use Rattle.directional.specs.Words.{limit_of, setting_of, turned_by};

use crate::choice;
use numbers::depth::Depth;
use row_words::dir::Dir;
use row_words::flag::Flags;
use setting::Setting;

// "Max-width or max-height 0 stands for B."
fn limit_of(b: u16, word: u16) -> u16
    ensures { result ≡ limit_of b word }
{
    if word > 0 { word } else { b }
}

// What the direction is set to. wide and high are the words max-width and max-height.
fn setting_of(b: u16, dir: Dir, delta: i32, flags: Flags, wide: u16, high: u16) -> Setting
    requires { nat_abs delta ≤ 3 }
    ensures { result ≡ setting_of b (nat_abs (angle_of dir delta)) flags wide high }
{
    Setting {
        angle: dir.turned(delta),
        flags: flags,
        max_width: limit_of(b, wide),
        max_height: limit_of(b, high),
    }
}

// The block, in out[..b * b].
pub fn turned_into(
    b: u16,
    d: u16,
    dir: Dir,
    delta: i32,
    flags: Flags,
    wide: u16,
    high: u16,
    above: &[i32],
    left: &[i32],
    corner: i32,
    out: &mut [f32],
)
    requires { (is_depth d ≡ true) × (nat_abs delta ≤ 3) × Given b (most d) above.now left.now corner (length out.old) }
    ensures { out.new ≡ block b b (turned_by d dir delta flags wide high b above.now left.now corner) out.old }
{
    let m = Depth::try_from(d).unwrap().max();
    let set = setting_of(b, dir, delta, flags, wide, high);
    choice::directional_into(b as usize, set, m, above, left, corner, out);
}
