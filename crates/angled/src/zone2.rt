// Zone 2: back along the edge above, and where that leads past the corner, back along the left edge.
ghost use Rattle.std.specs.Prelude.{◌≡◌, true, ◌+◌, ◌*◌, ◌≤◌, ◌<◌, pos, length};
ghost use Rattle.signed.specs.Range.{inside, Edge};
ghost use Rattle.lists.specs.Block.{block};
ghost use Rattle.zone_rows.specs.Listed.{Fours};
ghost use Rattle.angled.specs.AtAngle.{z2_from, z2_at};

use crate::ready;
use setting::{Setting, steps};

// With room for the edges' lists and a strip, and with the corner filtered.
fn z2_with(
    bs: usize,
    set: Setting,
    m: i32,
    above: &[i32],
    left: &[i32],
    corner: i32,
    pad: &mut [i32],
    top: &mut [i32],
    side: &mut [i32],
    strip: &mut [f32],
    out: &mut [f32],
)
    requires fours { Fours bs × (90 < set.angle) × (set.angle < 180) × (bs ≤ length above.now) × (bs ≤ length left.now) × (bs * bs ≤ length out.old) }
    requires in_bounds { (72 ≤ length pad.old) × (72 ≤ length top.old) × (72 ≤ length side.old) × (256 ≤ length strip.old) }
    requires edge { Edge 4095 bs above.now × Edge 4095 bs left.now × (inside (pos 4095) corner ≡ true) × (inside (pos 4095) m ≡ true) }
    ensures { out.new ≡ block bs bs (z2_from bs bs m set above.now left.now corner) out.old }
{
    let size = bs + 7;
    ready::above_list(bs, set, bs, size, above, corner, pad, top);
    ready::left_list(bs, set, bs, size, left, corner, pad, side);
    let f = set.flags;
    let dx = steps::step_of(180 - set.angle);
    let dy = steps::step_of(set.angle - 90);
    zones::z2::z2_strips(bs, bs / 4, f.luma, dx, dy, m, top, side, strip, out);
}

// A block, in out[..bs * bs].
pub fn z2_into(
    bs: usize,
    set: Setting,
    m: i32,
    above: &[i32],
    left: &[i32],
    corner: i32,
    out: &mut [f32],
)
    requires fours { Fours bs × (90 < set.angle) × (set.angle < 180) × (bs ≤ length above.now) × (bs ≤ length left.now) × (bs * bs ≤ length out.old) }
    requires edge { Edge 4095 bs above.now × Edge 4095 bs left.now × (inside (pos 4095) corner ≡ true) × (inside (pos 4095) m ≡ true) }
    ensures { out.new ≡ block bs bs (z2_at bs bs m set above.now left.now corner) out.old }
{
    let f = set.flags;
    let k = strength::corner::corner_of(f.edge_filter, bs + bs, left[0], corner, above[0]);
    let mut pad = [0i32; 72];
    let mut top = [0i32; 72];
    let mut side = [0i32; 72];
    let mut strip = [0f32; 256];
    z2_with(
        bs, set, m, above, left, k, &mut pad, &mut top, &mut side, &mut strip, out,
    );
}
