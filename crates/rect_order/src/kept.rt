// Refusal 23: "the order turns a clashing pair round" (document 01, Refusal numbers). A walk over the order: an entry below the largest so far is
// held against the rows after it that have run. Rows that have not run have empty rectangles in the columns. In the plan's own order nothing is
// compared.
ghost use Rattle.std.specs.Prelude.{◌≡◌, pos, length, replicate};
ghost use Rattle.reorder.specs.Check.{kept_b};
ghost use Rattle.rect_order.specs.Table.{clash_in, Tabled};

use crate::{columns, window};

// The entries one after the other; `top` is one more than the largest so far.
fn kept_with(table: &[i16], order: &[u16], columns: &mut [i16]) -> bool
    requires { Tabled table.now order.now × (columns.old ≡ replicate 24576 (pos 0)) }
    ensures { result ≡ kept_b (clash_in table.now) (length order.now) order.now }
{
    let mut top = 0;
    let mut k = 0;
    while k < order.len() {
        let i = order[k] as usize;
        if window::search(columns, table, i, top) {
            return false;
        }
        columns::enter(columns, table, i);
        top = minmax::max(top, i + 1);
        k += 1;
    }
    true
}

// Whether the order puts each clashing pair as the table has it.
pub fn kept(table: &[i16], order: &[u16]) -> bool
    requires { Tabled table.now order.now }
    ensures { result ≡ kept_b (clash_in table.now) (length order.now) order.now }
{
    let mut columns = [0i16; 24576];
    kept_with(table, order, &mut columns)
}
