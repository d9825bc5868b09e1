// The choice by angle (document 01, Directions).
ghost use Rattle.std.specs.Prelude.{◌≡◌, true, ◌≤◌, pos, nat_abs, length};
ghost use Rattle.signed.specs.Range.{inside};
ghost use Rattle.lists.specs.Block.{block};
ghost use Rattle.direct_calls.specs.Given.{Given};
ghost use Rattle.directional.specs.Directional.{is_down, is_across, directional_at};

use crate::copies;
use angled::{zone1, zone2, zone3};
use setting::Setting;

// "Angle 90, or below 90 with above missing".
fn is_down(set: Setting) -> bool
    ensures { result ≡ is_down set }
{
    if set.angle == 90 {
        return true;
    }
    if set.angle > 90 {
        return false;
    }
    let f = set.flags;
    !f.above
}

// "Angle 180, or over 180 with left missing".
fn is_across(set: Setting) -> bool
    ensures { result ≡ is_across set }
{
    if set.angle == 180 {
        return true;
    }
    if set.angle < 180 {
        return false;
    }
    let f = set.flags;
    !f.left
}

// A block, in out[..bs * bs].
pub fn directional_into(
    bs: usize,
    set: Setting,
    m: i32,
    above: &[i32],
    left: &[i32],
    corner: i32,
    out: &mut [f32],
)
    requires given { Given bs (nat_abs m) above.now left.now corner (length out.old) }
    requires m_value { (inside (pos 4095) m ≡ true) × (36 ≤ set.angle) × (set.angle ≤ 234) }
    ensures { out.new ≡ block bs bs (directional_at bs bs m set above.now left.now corner) out.old }
{
    if is_down(set) {
        copies::copy_down(bs, bs, above, out);
    } else if is_across(set) {
        copies::copy_across(bs, bs, left, out);
    } else if set.angle < 90 {
        zone1::z1_into(bs, set, m, above, corner, out);
    } else if set.angle < 180 {
        zone2::z2_into(bs, set, m, above, left, corner, out);
    } else {
        zone3::z3_into(bs, set, m, left, corner, out);
    }
}
