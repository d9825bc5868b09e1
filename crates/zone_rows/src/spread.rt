// A strip is four rows, kept by columns: the four samples of column c are its entries from 4 c on.
ghost use Rattle.std.specs.Prelude.{◌≡◌, ◌+◌, ◌*◌, ◌<◌, ◌≤◌, length, get_or};
ghost use Rattle.std.specs.Float.{nan};
ghost use Rattle.lists.specs.Fill.{tab};
ghost use Rattle.lists.specs.Block.{rows};

// Row j of a strip, as far as the row goes.
pub fn spread_row(strip: &[f32], j: usize, row: &mut [f32])
    requires { (j < 4) × (length row.old * 4 ≤ length strip.now) }
    ensures { row.new ≡ tab (length row.old) (λ c. get_or strip.now (c * 4 + j) nan) }
{
    let mut c = 0;
    while c < row.len() {
        row[c] = strip[c * 4 + j];
        c += 1;
    }
}

// All four rows, each of w samples.
pub fn spread(strip: &[f32], w: usize, out: &mut [f32])
    requires { (w ≤ 64) × (w * 4 ≤ length strip.now) × (length out.old ≡ 4 * w) }
    ensures { out.new ≡ tab (length out.old) (rows w (λ j c. get_or strip.now (c * 4 + j) nan)) }
{
    let mut o = 0;
    let mut j = 0;
    while j < 4 {
        let e = o + w;
        spread_row(strip, j, &mut out[o..e]);
        o = e;
        j += 1;
    }
}
