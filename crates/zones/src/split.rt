// The rows of zone 2 in a strip of four: the first columns of a row are from the left edge, which the strip holds, and the others from the edge above.
// Each sample is given once.
ghost use Rattle.std.specs.Prelude.{◌≡◌, true, cond, ◌+◌, ◌*◌, ◌-◌, ◌≤◌, ◌<◌, leb, pos, length, get_or};
ghost use Rattle.std.specs.Float.{nan};
ghost use Rattle.signed.specs.Range.{inside};
ghost use Rattle.lists.specs.Fill.{tab};
ghost use Rattle.lists.specs.Block.{rows, sample};
ghost use Rattle.taps.specs.Quads.{table_of};
ghost use Rattle.zone_rows.specs.Listed.{listed, Holds};
ghost use Rattle.zone_spec.specs.Split.{split_of};

use zone_rows::spread;

// How many columns of a row are from the left edge: those that t 64ths back lead past the corner.
fn split_of(w: usize, t: usize) -> usize
    requires { 0 < t }
    ensures { result ≡ split_of w t }
{
    let k = (t - 1) / 64;
    if w < k { w } else { k }
}

// Row j of the strip, t 64ths back along the edge above.
fn split_row(
    strip: &[f32],
    j: usize,
    t: usize,
    lum: bool,
    filters: &[[i32; 4]; 32],
    m: i32,
    top: &[i32],
    row: &mut [f32],
)
    requires j_bound { (j < 4) × (0 < t) × (length row.old ≤ 64) × (length row.old * 4 ≤ length strip.now) }
    requires m_value { (inside (pos 4095) m ≡ true) × (filters.now ≡ table_of lum) × Holds (length row.old + 6) top.now }
    ensures { row.new ≡ tab (length row.old) (λ c. cond (leb t (64 * (c + 1))) (sample (listed lum m top.now (64 * (c + 1) - t))) (get_or strip.now (c * 4 + j) nan)) }
{
    let w = row.len();
    let k = split_of(w, t);
    let start = 0;
    spread::spread_row(strip, j, &mut row[start..k]);
    if k < w {
        let q = 64 * (k + 4) - t;
        interpolation::between::between(top, lum, filters, q, m, &mut row[k..w]);
    }
}

// All four rows, from row r0 on.
pub fn split_rows(
    strip: &[f32],
    w: usize,
    r0: usize,
    lum: bool,
    filters: &[[i32; 4]; 32],
    dx: usize,
    m: i32,
    top: &[i32],
    out: &mut [f32],
)
    requires w_bound { (w ≤ 64) × (r0 ≤ 60) × (0 < dx) × (dx ≤ 4096) × (w * 4 ≤ length strip.now) × (length out.old ≡ 4 * w) }
    requires m_value { (inside (pos 4095) m ≡ true) × (filters.now ≡ table_of lum) × Holds (w + 6) top.now }
    ensures { out.new ≡ tab (length out.old) (rows w (λ j c. cond (leb ((r0 + j + 1) * dx) (64 * (c + 1))) (sample (listed lum m top.now (64 * (c + 1) - (r0 + j + 1) * dx))) (get_or strip.now (c * 4 + j) nan))) }
{
    let mut t = r0 * dx;
    let mut o = 0;
    let mut j = 0;
    while j < 4 {
        let e = o + w;
        t += dx;
        split_row(strip, j, t, lum, filters, m, top, &mut out[o..e]);
        o = e;
        j += 1;
    }
}
