// "Direct predictor calls pass the job's words that they use, want 2B entries in both edges and test all of them and the corner."
// (document 01, Refusal numbers)
ghost use Rattle.std.specs.Prelude.{◌≡◌, ◌≤◌, ◌*◌, length};
ghost use Rattle.direct_calls.specs.Direct.{lists_long, entries_in_range, direct_answer};

use crate::range;
use numbers::answer::{Answer, Refusal};
use numbers::depth::Depth;
use numbers::size::Size;

// Whether edges of a and l entries and an output of n are long enough for a block of bs x bs.
fn lists_long(bs: usize, a: usize, l: usize, n: usize) -> bool
    requires { bs ≤ 64 }
    ensures { result ≡ lists_long bs a l n }
{
    if a < 2 * bs {
        return false;
    }
    if l < 2 * bs {
        return false;
    }
    bs * bs <= n
}

// Whether 2 bs entries of both edges and the corner are in 0..m.
fn entries_in_range(bs: usize, m: i32, above: &[i32], left: &[i32], corner: i32) -> bool
    requires { (bs ≤ 64) × (2 * bs ≤ length above.now) × (2 * bs ≤ length left.now) }
    ensures { result ≡ entries_in_range bs m above.now left.now corner }
{
    if !range::both_in_range(above, left, 2 * bs, m) {
        return false;
    }
    range::in_range(corner, m)
}

// What a direct call answers, whose output has n entries. `named` says that the words of its mode name one; a call that takes no mode passes true.
pub fn direct(
    b: u16,
    d: u16,
    named: bool,
    above: &[i32],
    left: &[i32],
    corner: i32,
    n: usize,
) -> Answer
    ensures { result ≡ direct_answer b d named above.now left.now corner n }
{
    Size::try_from(b)?;
    let depth = Depth::try_from(d)?;
    if !named {
        return Err(Refusal::BadMode);
    }
    let bs = b as usize;
    if !lists_long(bs, above.len(), left.len(), n) {
        return Err(Refusal::ShortList);
    }
    if !entries_in_range(bs, depth.max(), above, left, corner) {
        return Err(Refusal::BadSample);
    }
    Ok(())
}
