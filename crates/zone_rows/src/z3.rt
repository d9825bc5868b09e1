// Zone 3 by strips of four rows: down a column the base moves by one entry and the phase stays, so that a column of a strip is a row of four samples.
ghost use Rattle.std.specs.Prelude.{◌≡◌, true, ◌+◌, ◌*◌, ◌/◌, ◌≤◌, pos, length, get_or};
ghost use Rattle.signed.specs.Range.{inside};
ghost use Rattle.lists.specs.Fill.{filled};
ghost use Rattle.lists.specs.Block.{rows, sample, block};
ghost use Rattle.taps.specs.Quads.{table_of};
ghost use Rattle.taps.specs.Interp.{between};
ghost use Rattle.zone_rows.specs.Listed.{ahead, Holds};

use crate::spread;

// The columns of a strip: column c starts (c + 1) dy 64ths after from.
fn z3_columns(
    w: usize,
    lum: bool,
    filters: &[[i32; 4]; 32],
    dy: usize,
    from: usize,
    m: i32,
    list: &[i32],
    strip: &mut [f32],
)
    requires w_bound { (w ≤ 64) × (dy ≤ 4096) × (from ≤ 8192) × (w * 4 ≤ length strip.old) × (inside (pos 4095) m ≡ true) × (filters.now ≡ table_of lum) }
    requires holds { Holds ((from + w * dy) / 64 + 7) list.now }
    ensures { strip.new ≡ filled (w * 4) (rows 4 (λ c j. sample (between lum m (λ k. get_or list.now k (pos 0)) (from + (c + 1) * dy + 64 * j)))) strip.old }
{
    let mut q = from;
    let mut o = 0;
    let mut c = 0;
    while c < w {
        let e = o + 4;
        q += dy;
        interpolation::between::between(list, lum, filters, q, m, &mut strip[o..e]);
        o = e;
        c += 1;
    }
}

// 4 n rows of w samples, in out[..4 * n * w], by the taps of a table.
fn z3_by(
    w: usize,
    n: usize,
    lum: bool,
    filters: &[[i32; 4]; 32],
    dy: usize,
    m: i32,
    list: &[i32],
    strip: &mut [f32],
    out: &mut [f32],
)
    requires w_bound { (w ≤ 64) × (n ≤ 16) × (dy ≤ 4096) × (w * 4 ≤ length strip.old) × (4 * n * w ≤ length out.old) × (inside (pos 4095) m ≡ true) × (filters.now ≡ table_of lum) }
    requires holds { Holds (w * dy / 64 + 4 * n + 7) list.now }
    ensures { out.new ≡ block w (4 * n) (λ r c. ahead lum m dy list.now c r) out.old }
{
    let mut from = 256;
    let mut o = 0;
    let mut i = 0;
    while i < n {
        let e = o + 4 * w;
        z3_columns(w, lum, filters, dy, from, m, list, strip);
        spread::spread(strip, w, &mut out[o..e]);
        from += 256;
        o = e;
        i += 1;
    }
}

pub fn z3_strips(
    w: usize,
    n: usize,
    lum: bool,
    dy: usize,
    m: i32,
    list: &[i32],
    strip: &mut [f32],
    out: &mut [f32],
)
    requires w_bound { (w ≤ 64) × (n ≤ 16) × (dy ≤ 4096) × (w * 4 ≤ length strip.old) × (4 * n * w ≤ length out.old) × (inside (pos 4095) m ≡ true) }
    requires holds { Holds (w * dy / 64 + 4 * n + 7) list.now }
    ensures { out.new ≡ block w (4 * n) (λ r c. ahead lum m dy list.now c r) out.old }
{
    let mut filters = taps::table::chroma_table();
    if lum {
        filters = taps::table::luma_table();
    }
    z3_by(w, n, lum, &filters, dy, m, list, strip, out);
}
