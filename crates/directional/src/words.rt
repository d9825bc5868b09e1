// A direction in a job's words (document 01, Ranges and numbers that name things).
ghost use Rattle.std.specs.Prelude.{◌≡◌, true, length};
ghost use Rattle.numbers.specs.Depth.{is_depth, most};
ghost use Rattle.lists.specs.Block.{block};
ghost use Rattle.direct_calls.specs.Given.{Given};
ghost use Rattle.directional.specs.Words.{is_named, directed};

use crate::turned;
use row_words::dir::Dir;
use row_words::flag::Flags;

// Refusal 3: whether the words name a direction.
pub fn is_named(direction: u16, delta: u16, flags: u16) -> bool
    ensures { result ≡ is_named direction delta flags }
{
    let Ok(_) = Dir::try_from(direction) else {
        return false;
    };
    if !Dir::is_delta(delta) {
        return false;
    }
    Flags::no_stray(flags)
}

// The block that the words name, in out[..b * b].
pub fn directed_into(
    b: u16,
    d: u16,
    direction: u16,
    delta: u16,
    flags: u16,
    wide: u16,
    high: u16,
    above: &[i32],
    left: &[i32],
    corner: i32,
    out: &mut [f32],
)
    requires { (is_depth d ≡ true) × (is_named direction delta flags ≡ true) × Given b (most d) above.now left.now corner (length out.old) }
    ensures { out.new ≡ block b b (directed d direction delta flags wide high b above.now left.now corner) out.old }
{
    let dir = Dir::try_from(direction).unwrap();
    turned::turned_into(
        b,
        d,
        dir,
        Dir::delta(delta),
        Flags::of(flags),
        wide,
        high,
        above,
        left,
        corner,
        out,
    );
}
