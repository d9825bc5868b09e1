// "copy above down", "copy left across" (document 01, Directions).
ghost use Rattle.std.specs.Prelude.{◌≡◌, ◌*◌, ◌≤◌, pos, nat_abs, length, get_or};
ghost use Rattle.signed.specs.Range.{Edge};
ghost use Rattle.lists.specs.Fill.{tab};
ghost use Rattle.lists.specs.Block.{sample, block};

fn to_sample(v: i32) -> f32
    requires { nat_abs v ≤ 4095 }
    ensures { result ≡ sample v }
{
    v as f32
}

// A row from the entries of an edge.
fn copy_row(edge: &[i32], row: &mut [f32])
    requires { (length row.old ≤ length edge.now) × Edge 4095 (length row.old) edge.now }
    ensures { row.new ≡ tab (length row.old) (λ c. sample (get_or edge.now c (pos 0))) }
{
    rows::fill_long(row, |c| to_sample(edge[c]));
}

// A row of one entry.
fn fill_row(v: i32, row: &mut [f32])
    requires { nat_abs v ≤ 4095 }
    ensures { row.new ≡ tab (length row.old) (λ c. sample v) }
{
    rows::repeat(row, to_sample(v));
}

// h rows of w samples, each the edge above.
pub fn copy_down(w: usize, h: usize, above: &[i32], out: &mut [f32])
    requires { (w ≤ length above.now) × Edge 4095 w above.now × (h * w ≤ length out.old) }
    ensures { out.new ≡ block w h (λ r c. get_or above.now c (pos 0)) out.old }
{
    for r in 0..h {
        let o = r * w;
        copy_row(above, &mut out[o..o + w]);
    }
}

// h rows of w samples, each an entry of the left edge.
pub fn copy_across(w: usize, h: usize, left: &[i32], out: &mut [f32])
    requires { (h ≤ length left.now) × Edge 4095 h left.now × (h * w ≤ length out.old) }
    ensures { out.new ≡ block w h (λ r c. get_or left.now r (pos 0)) out.old }
{
    for r in 0..h {
        let o = r * w;
        fill_row(left[r], &mut out[o..o + w]);
    }
}
