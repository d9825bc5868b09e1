// The rows after an entry of the order that have run, in the plan's order: a window of the lists. Blocks and hulls tell most of them apart at once;
// only where they overlap are the rows compared exactly.
ghost use Rattle.std.specs.Prelude.{◌+◌, ◌*◌, ◌≤◌, length};
ghost use Rattle.order.specs.Window.{WindowRows, Turned, Searched};

use crate::bound_lists;
use crate::bound_lists::Sides;
use clash::pair;

// Whether row j touches row i, and clashes with it. The bounds of row i are b and h.
fn turned(
    width: usize,
    height: usize,
    n: usize,
    plan: &[u16],
    i: usize,
    j: usize,
    blocks: &[i16],
    hulls: &[i16],
    b: Sides,
    h: Sides,
) -> bool
    requires { WindowRows plan.now i j blocks.now hulls.now × (16 * j + 16 ≤ length plan.now) }
    ensures { Turned width height n plan.now i j blocks.now hulls.now b h result }
{
    let near = bound_lists::meets_at(hulls, j, b);
    let far = bound_lists::meets_at(blocks, j, h);
    if near | far {
        return pair::rows_clash(width, height, n, plan, i, j);
    }
    false
}

// The rows after i one by one.
fn one_by_one(
    width: usize,
    height: usize,
    n: usize,
    plan: &[u16],
    i: usize,
    top: usize,
    blocks: &[i16],
    hulls: &[i16],
    b: Sides,
    h: Sides,
) -> bool
    requires { WindowRows plan.now i top blocks.now hulls.now }
    ensures { Searched width height n plan.now i top blocks.now hulls.now b h result }
{
    let mut j = i + 1;
    while j < top {
        if turned(width, height, n, plan, i, j, blocks, hulls, b, h) {
            return true;
        }
        j += 1;
    }
    false
}

// The rows after i at once, and one by one if any of them touches.
pub fn search(
    width: usize,
    height: usize,
    n: usize,
    plan: &[u16],
    i: usize,
    top: usize,
    blocks: &[i16],
    hulls: &[i16],
    b: Sides,
    h: Sides,
) -> bool
    requires { WindowRows plan.now i top blocks.now hulls.now }
    ensures { Searched width height n plan.now i top blocks.now hulls.now b h result }
{
    let from = i + 1;
    let near = bound_lists::any_meets(hulls, from, top, b);
    let far = bound_lists::any_meets(blocks, from, top, h);
    if near | far {
        return one_by_one(width, height, n, plan, i, top, blocks, hulls, b, h);
    }
    false
}
