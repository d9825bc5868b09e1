// Refusal 23: "the order turns a clashing pair round". A walk over the order: an entry below the largest so far is held against the rows after it that
// have run. Rows that have not run, and rows that fail 1 to 7, have no bounds in the lists. In the plan's own order nothing is compared.
ghost use Rattle.std.specs.Prelude.{◌≡◌, ◌+◌, ◌*◌, ◌≤◌};
ghost use Rattle.order.specs.Rules.{is_kept};
ghost use Rattle.order.specs.Window.{WindowRows, Passed, Walk, Blank};

use crate::{bound_lists, hull, window};
use clash::pair;
use job::row;

// Row i: whether it clashes with a row after it that has run; if not, it is noted.
fn pass(
    width: usize,
    height: usize,
    n: usize,
    plan: &[u16],
    i: usize,
    top: usize,
    blocks: &mut [i16],
    hulls: &mut [i16],
) -> bool
    requires { (width ≤ 4096) × (height ≤ 4096) × WindowRows plan.now i top blocks.old hulls.old }
    ensures { Passed width height n plan.now i top blocks.old hulls.old blocks.new hulls.new result }
{
    let o = 16 * i;
    let e = o + 16;
    let row = &plan[o..e];
    let on = pair::stands(width, height, n, row);
    let s = row::spec_of(row);
    let b = hull::block_sides(on, s);
    let h = hull::hull_sides(on, s);
    if window::search(width, height, n, plan, i, top, blocks, hulls, b, h) {
        return true;
    }
    bound_lists::note(blocks, i, b);
    bound_lists::note(hulls, i, h);
    false
}

// The entries one after the other; `top` is one more than the largest so far.
fn kept_with(
    width: usize,
    height: usize,
    n: usize,
    plan: &[u16],
    order: &[u16],
    blocks: &mut [i16],
    hulls: &mut [i16],
) -> bool
    requires { Walk width height plan.now order.now × Blank blocks.old × Blank hulls.old }
    ensures { result ≡ is_kept width height n plan.now order.now }
{
    let mut top = 0;
    let mut k = 0;
    while k < order.len() {
        let i = order[k] as usize;
        if pass(width, height, n, plan, i, top, blocks, hulls) {
            return false;
        }
        top = minmax::max(top, i + 1);
        k += 1;
    }
    true
}

// Whether the order puts each clashing pair as the plan has it.
pub fn kept(width: usize, height: usize, n: usize, plan: &[u16], order: &[u16]) -> bool
    requires { Walk width height plan.now order.now }
    ensures { result ≡ is_kept width height n plan.now order.now }
{
    let mut blocks = [0i16; 4096];
    let mut hulls = [0i16; 4096];
    kept_with(width, height, n, plan, order, &mut blocks, &mut hulls)
}
