// The columns: 24 parts of 1,024 numbers in one list, one for each number of a table's row. 16-bit numbers that are compared eight at a time.
ghost use Rattle.std.specs.Prelude.{◌≡◌, true, ◌+◌, ◌*◌, ◌≤◌, ◌<◌, length};
ghost use Rattle.reorder.specs.Rect.{meet_b};
ghost use Rattle.rect_order.specs.Table.{Plain};
ghost use Rattle.rect_order.specs.Columns.{span_of, PlainBounds, rect_at, Entered, Tells};

use crate::bounds;
use crate::bounds::Bounds;

// Whether the rectangle at place p shares a sample with another.
fn meets_at(columns: &[i16], p: usize, s: Bounds) -> bool
    requires { (length columns.now ≡ 24576) × (p + 3072 < 24576) × Plain columns.now × PlainBounds s }
    ensures { result ≡ meet_b (span_of s) (rect_at columns.now p) }
{
    let x0 = bounds::larger(s.x0, columns[p]);
    let x1 = bounds::smaller(s.x1, columns[1024 + p]);
    let y0 = bounds::larger(s.y0, columns[2048 + p]);
    let y1 = bounds::smaller(s.y1, columns[3072 + p]);
    (x0 < x1) & (y0 < y1)
}

// Whether any from place `from` up to `to` does: no branch, so that eight are compared at a time. An empty rectangle meets none.
pub fn any_meets(columns: &[i16], from: usize, to: usize, s: Bounds) -> bool
    requires { (length columns.now ≡ 24576) × (to + 3072 ≤ 24576) × Plain columns.now × PlainBounds s }
    ensures { Tells (λ p. meet_b (span_of s) (rect_at columns.now p) ≡ true) from to result }
{
    if s.x1 <= s.x0 {
        return false;
    }
    let mut hit = false;
    let mut p = from;
    while p < to {
        let here = meets_at(columns, p, s);
        hit = hit | here;
        p += 1;
    }
    hit
}

// Row i of the table is entered.
pub fn enter(columns: &mut [i16], table: &[i16], i: usize)
    requires { (length columns.old ≡ 24576) × Plain columns.old × (24 * i + 24 ≤ length table.now) × (i < 1024) × Plain table.now }
    ensures { Entered table.now columns.old columns.new i 24 }
{
    let o = 24 * i;
    let mut m = 0;
    while m < 24 {
        let number = table[o + m];
        columns[1024 * m + i] = number;
        m += 1;
    }
}
