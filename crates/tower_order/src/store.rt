// Rectangles in the table that an order is tested with: four numbers each, six rectangles a row.
ghost use Rattle.std.specs.Prelude.{◌≡◌, ◌+◌, ◌*◌, ◌≤◌, length};
ghost use Rattle.planes.specs.Rects.{Within};
ghost use Rattle.clash.specs.Rects.{rect_of};
ghost use Rattle.rect_order.specs.Table.{Plain};
ghost use Rattle.tower_rects.specs.Rows.{rects_of, Inside};
ghost use Rattle.tower_order.specs.Tables.{with_rect, Stored};

use clash::rect::Rect;
use tower_rects::rects::JobRects;

// The four numbers of a rectangle, from place p on.
fn put(table: &mut [i16], p: usize, r: Rect)
    requires { (p + 4 ≤ length table.old) × Within 32767 32767 (rect_of r) }
    ensures { table.new ≡ with_rect table.old p (rect_of r) }
{
    let x1 = r.x + r.w;
    let y1 = r.y + r.h;
    table[p] = r.x as i16;
    table[p + 1] = x1 as i16;
    table[p + 2] = r.y as i16;
    table[p + 3] = y1 as i16;
}

// Row i of the table.
pub fn put_row(table: &mut [i16], i: usize, r: JobRects)
    requires { (24 * i + 24 ≤ length table.old) × Plain table.old × Inside 32767 32767 (rects_of r) }
    ensures { Stored table.old table.new i 6 (rects_of r) }
{
    let o = 24 * i;
    put(table, o, r.written);
    put(table, o + 4, r.a);
    put(table, o + 8, r.b);
    put(table, o + 12, r.c);
    put(table, o + 16, r.d);
    put(table, o + 20, r.e);
}
