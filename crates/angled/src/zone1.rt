// Zone 1: along the edge above.
ghost use Rattle.std.specs.Prelude.{◌≡◌, true, ◌+◌, ◌*◌, ◌≤◌, ◌<◌, pos, nat_abs, length};
ghost use Rattle.signed.specs.Range.{inside, Edge};
ghost use Rattle.lists.specs.Block.{block};
ghost use Rattle.zone_rows.specs.Listed.{Fours};
ghost use Rattle.angled.specs.AtAngle.{z1_at};

use crate::ready;
use setting::{Setting, steps};

// With room for the edge's lists.
fn z1_with(
    bs: usize,
    set: Setting,
    m: i32,
    above: &[i32],
    corner: i32,
    pad: &mut [i32],
    list: &mut [i32],
    out: &mut [f32],
)
    requires fours { Fours bs × (36 ≤ set.angle) × (set.angle < 90) × (bs + bs ≤ length above.now) × (bs * bs ≤ length out.old) }
    requires in_bounds { (168 ≤ length pad.old) × (168 ≤ length list.old) × Edge (nat_abs m) (bs + bs) above.now × (inside (pos (nat_abs m)) corner ≡ true) × (inside (pos 4095) m ≡ true) }
    ensures { out.new ≡ block bs bs (z1_at bs bs m set above.now corner) out.old }
{
    let n = bs + bs;
    let size = n + bs / 2 + 7;
    ready::above_list(bs, set, n, size, above, corner, pad, list);
    let f = set.flags;
    let step = steps::step_of(set.angle);
    zone_rows::z1::z1_rows(bs, bs, f.luma, step, m, list, out);
}

// A block, in out[..bs * bs].
pub fn z1_into(bs: usize, set: Setting, m: i32, above: &[i32], corner: i32, out: &mut [f32])
    requires fours { Fours bs × (36 ≤ set.angle) × (set.angle < 90) × (bs + bs ≤ length above.now) × (bs * bs ≤ length out.old) }
    requires edge { Edge (nat_abs m) (bs + bs) above.now × (inside (pos (nat_abs m)) corner ≡ true) × (inside (pos 4095) m ≡ true) }
    ensures { out.new ≡ block bs bs (z1_at bs bs m set above.now corner) out.old }
{
    let mut pad = [0i32; 168];
    let mut list = [0i32; 168];
    z1_with(bs, set, m, above, corner, &mut pad, &mut list, out);
}
