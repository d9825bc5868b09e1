// The table of a plan: row by row, what the job writes and reads.
ghost use Rattle.std.specs.Prelude.{◌+◌, ◌*◌, ◌≤◌, length};
ghost use Rattle.rect_order.specs.Table.{Plain};
ghost use Rattle.tower_job.specs.Row.{tower_row};
ghost use Rattle.tower_rects.specs.Rows.{row_rects};
ghost use Rattle.tower_order.specs.Tables.{Stored, Filled};

use crate::store;
use tower_rects::read;
use tower_words::word::TowerWord;

// Row i.
fn fill_row(width: usize, height: usize, n: usize, plan: &[u16], i: usize, table: &mut [i16])
    requires { (width ≤ 4096) × (height ≤ 4096) × (32 * i + 32 ≤ length plan.now) × (24 * i + 24 ≤ length table.old) × Plain table.old }
    ensures { Stored table.old table.new i 6 (row_rects width height n (tower_row plan.now i)) }
{
    let o = TowerWord::COUNT * i;
    let e = o + TowerWord::COUNT;
    let r = read::row_rects(width, height, n, &plan[o..e]);
    store::put_row(table, i, r);
}

// Rows 0 to `rows` - 1.
pub fn fill(width: usize, height: usize, n: usize, plan: &[u16], rows: usize, table: &mut [i16])
    requires { (width ≤ 4096) × (height ≤ 4096) × (32 * rows ≤ length plan.now) × (24 * rows ≤ length table.old) × Plain table.old }
    ensures { Filled width height n plan.now table.new rows }
{
    let mut i = 0;
    while i < rows {
        fill_row(width, height, n, plan, i, table);
        i += 1;
    }
}
