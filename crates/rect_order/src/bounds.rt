// Rectangles by their bounds, in 16-bit numbers.
ghost use Rattle.std.specs.Prelude.{◌≡◌, cond, ◌+◌, ◌*◌, ◌≤◌, ◌<◌, length};
ghost use Rattle.std.specs.Int.Signed.{lt_z};
ghost use Rattle.rect_order.specs.Columns.{bounds_in};

// The first column and the one past the last, the first row and the one past the last.
#[derive(Clone, Copy)]
pub struct Bounds {
    pub x0: i16,
    pub x1: i16,
    pub y0: i16,
    pub y1: i16,
}

// The larger of two.
pub fn larger(a: i16, b: i16) -> i16
    ensures { result ≡ cond (lt_z a b) b a }
{
    if a < b { b } else { a }
}

// The smaller of two.
pub fn smaller(a: i16, b: i16) -> i16
    ensures { result ≡ cond (lt_z a b) a b }
{
    if a < b { a } else { b }
}

// Rectangle k of row i of the table.
pub fn bounds_in(table: &[i16], i: usize, k: usize) -> Bounds
    requires { (24 * i + 24 ≤ length table.now) × (i < 1024) × (k < 6) }
    ensures { result ≡ bounds_in table.now i k }
{
    let o = 24 * i + 4 * k;
    let x0 = table[o];
    let x1 = table[o + 1];
    let y0 = table[o + 2];
    let y1 = table[o + 3];
    Bounds { x0, x1, y0, y1 }
}
