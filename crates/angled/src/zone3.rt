// Zone 3: along the left edge.
ghost use Rattle.std.specs.Prelude.{◌≡◌, true, ◌+◌, ◌*◌, ◌≤◌, ◌<◌, pos, nat_abs, length};
ghost use Rattle.signed.specs.Range.{inside, Edge};
ghost use Rattle.lists.specs.Block.{block};
ghost use Rattle.zone_rows.specs.Listed.{Fours};
ghost use Rattle.angled.specs.AtAngle.{z3_at};

use crate::ready;
use setting::{Setting, steps};

// With room for the edge's lists and for a strip.
fn z3_with(
    bs: usize,
    set: Setting,
    m: i32,
    left: &[i32],
    corner: i32,
    pad: &mut [i32],
    list: &mut [i32],
    strip: &mut [f32],
    out: &mut [f32],
)
    requires fours { Fours bs × (180 < set.angle) × (set.angle ≤ 234) × (bs + bs ≤ length left.now) × (bs * bs ≤ length out.old) }
    requires in_bounds { (168 ≤ length pad.old) × (168 ≤ length list.old) × (256 ≤ length strip.old) × Edge (nat_abs m) (bs + bs) left.now × (inside (pos (nat_abs m)) corner ≡ true) × (inside (pos 4095) m ≡ true) }
    ensures { out.new ≡ block bs bs (z3_at bs bs m set left.now corner) out.old }
{
    let n = bs + bs;
    let size = n + bs / 2 + 7;
    ready::left_list(bs, set, n, size, left, corner, pad, list);
    let f = set.flags;
    let step = steps::step_of(270 - set.angle);
    zone_rows::z3::z3_strips(bs, bs / 4, f.luma, step, m, list, strip, out);
}

// A block, in out[..bs * bs].
pub fn z3_into(bs: usize, set: Setting, m: i32, left: &[i32], corner: i32, out: &mut [f32])
    requires fours { Fours bs × (180 < set.angle) × (set.angle ≤ 234) × (bs + bs ≤ length left.now) × (bs * bs ≤ length out.old) }
    requires edge { Edge (nat_abs m) (bs + bs) left.now × (inside (pos (nat_abs m)) corner ≡ true) × (inside (pos 4095) m ≡ true) }
    ensures { out.new ≡ block bs bs (z3_at bs bs m set left.now corner) out.old }
{
    let mut pad = [0i32; 168];
    let mut list = [0i32; 168];
    let mut strip = [0f32; 256];
    z3_with(
        bs, set, m, left, corner, &mut pad, &mut list, &mut strip, out,
    );
}
