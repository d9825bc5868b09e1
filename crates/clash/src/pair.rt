// Two rows of a plan: "so clashes hang on rows and sizes alone" (document 01, From samples to edges).
ghost use Rattle.std.specs.Prelude.{◌≡◌, ◌+◌, ◌*◌, ◌≤◌, length};
ghost use Rattle.job.specs.Row.{row_at};
ghost use Rattle.job.specs.Rules.{stands};
ghost use Rattle.touches.specs.Rects.{clash_of};

use crate::hits;
use job::{row, rules};

// Whether the job of a row does not fail 1 to 7.
pub fn stands(width: usize, height: usize, n: usize, row: &[u16]) -> bool
    requires { length row.now ≡ 16 }
    ensures { result ≡ stands width height n row.now }
{
    rules::row_answer(width, height, n, row).is_ok()
}

// Whether two rows clash; one that fails 1 to 7 touches nothing.
fn clashes(width: usize, height: usize, n: usize, one: &[u16], two: &[u16]) -> bool
    requires { (length one.now ≡ 16) × (length two.now ≡ 16) }
    ensures { result ≡ clash_of width height n one.now two.now }
{
    if !stands(width, height, n, one) {
        return false;
    }
    if !stands(width, height, n, two) {
        return false;
    }
    let s = row::spec_of(one);
    let t = row::spec_of(two);
    let there = hits::hits(s, t);
    let back = hits::hits(t, s);
    there | back
}

// Whether rows i and j of a plan clash.
pub fn rows_clash(width: usize, height: usize, n: usize, plan: &[u16], i: usize, j: usize) -> bool
    requires { (16 * i + 16 ≤ length plan.now) × (16 * j + 16 ≤ length plan.now) }
    ensures { result ≡ clash_of width height n (row_at plan.now i) (row_at plan.now j) }
{
    let a = 16 * i;
    let b = 16 * j;
    let a_end = a + 16;
    let b_end = b + 16;
    clashes(width, height, n, &plan[a..a_end], &plan[b..b_end])
}
