// The rows after an entry of the order that have run: a window of the columns. Two rows clash if one writes a sample that the other reads or writes.
ghost use Rattle.std.specs.Prelude.{◌≡◌, ◌+◌, ◌≤◌, length};
ghost use Rattle.rect_order.specs.Table.{Plain};
ghost use Rattle.rect_order.specs.Columns.{span_of, PlainBounds, Tells, WriteMeets, ReadMeets, Struck, Held};

use crate::bounds::Bounds;
use crate::{bounds, columns};

// What a row writes against all six rectangles of the rows of the window.
fn write_meets(columns: &[i16], from: usize, to: usize, w: Bounds) -> bool
    requires { (length columns.now ≡ 24576) × (from ≤ 1024) × (to ≤ 1024) × Plain columns.now × PlainBounds w }
    ensures { Tells (WriteMeets columns.now (span_of w)) from to result }
{
    let mut k = 0;
    while k < 6 {
        let o = 4096 * k;
        if columns::any_meets(columns, o + from, o + to, w) {
            return true;
        }
        k += 1;
    }
    false
}

// The five rectangles that row i reads against what the rows of the window write.
fn reads_meet(columns: &[i16], table: &[i16], i: usize, from: usize, to: usize) -> bool
    requires { Held columns.now table.now i to }
    ensures { Tells (ReadMeets columns.now table.now i) from to result }
{
    let mut k = 1;
    while k < 6 {
        let s = bounds::bounds_in(table, i, k);
        if columns::any_meets(columns, from, to, s) {
            return true;
        }
        k += 1;
    }
    false
}

// Whether row i clashes with a row after it, below `top`, that has run.
pub fn search(columns: &[i16], table: &[i16], i: usize, top: usize) -> bool
    requires { Held columns.now table.now i top }
    ensures { Tells (Struck columns.now table.now i) (i + 1) top result }
{
    let from = i + 1;
    if top <= from {
        return false;
    }
    let w = bounds::bounds_in(table, i, 0);
    if write_meets(columns, from, top, w) {
        return true;
    }
    reads_meet(columns, table, i, from, top)
}
