// Zone 2 by strips of four rows.
ghost use Rattle.std.specs.Prelude.{◌≡◌, true, ◌+◌, ◌*◌, ◌≤◌, ◌<◌, pos, length};
ghost use Rattle.signed.specs.Range.{inside};
ghost use Rattle.lists.specs.Fill.{tab};
ghost use Rattle.lists.specs.Block.{rows, sample, block};
ghost use Rattle.taps.specs.Quads.{table_of};
ghost use Rattle.zone_rows.specs.Listed.{Holds};
ghost use Rattle.zone_spec.specs.Either.{either};

use crate::{split, walk};

// The strip from row r0 on.
fn z2_strip(
    w: usize,
    r0: usize,
    lum: bool,
    filters: &[[i32; 4]; 32],
    dx: usize,
    dy: usize,
    m: i32,
    top: &[i32],
    left: &[i32],
    strip: &mut [f32],
    out: &mut [f32],
)
    requires w_bound { (w ≤ 64) × (r0 ≤ 60) × (0 < dx) × (dx ≤ 4096) × (0 < dy) × (dx * dy ≤ 4096) × (w * 4 ≤ length strip.old) × (length out.old ≡ 4 * w) }
    requires m_value { (inside (pos 4095) m ≡ true) × (filters.now ≡ table_of lum) × Holds (w + 6) top.now × Holds (r0 + 10) left.now }
    ensures { out.new ≡ tab (length out.old) (rows w (λ j c. sample (either lum m dx dy top.now left.now (r0 + j) c))) }
{
    walk::left_columns(w, r0, lum, filters, dx, dy, m, left, strip);
    split::split_rows(strip, w, r0, lum, filters, dx, m, top, out);
}

// 4 n rows of w samples, in out[..4 * n * w], by the taps of a table.
fn z2_by(
    w: usize,
    n: usize,
    lum: bool,
    filters: &[[i32; 4]; 32],
    dx: usize,
    dy: usize,
    m: i32,
    top: &[i32],
    left: &[i32],
    strip: &mut [f32],
    out: &mut [f32],
)
    requires w_bound { (w ≤ 64) × (n ≤ 16) × (0 < dx) × (dx ≤ 4096) × (0 < dy) × (dx * dy ≤ 4096) × (w * 4 ≤ length strip.old) × (4 * n * w ≤ length out.old) × (filters.now ≡ table_of lum) }
    requires m_value { (inside (pos 4095) m ≡ true) × Holds (w + 6) top.now × Holds (4 * n + 6) left.now }
    ensures { out.new ≡ block w (4 * n) (either lum m dx dy top.now left.now) out.old }
{
    let mut r0 = 0;
    let mut o = 0;
    let mut i = 0;
    while i < n {
        let e = o + 4 * w;
        z2_strip(
            w,
            r0,
            lum,
            filters,
            dx,
            dy,
            m,
            top,
            left,
            strip,
            &mut out[o..e],
        );
        r0 += 4;
        o = e;
        i += 1;
    }
}

pub fn z2_strips(
    w: usize,
    n: usize,
    lum: bool,
    dx: usize,
    dy: usize,
    m: i32,
    top: &[i32],
    left: &[i32],
    strip: &mut [f32],
    out: &mut [f32],
)
    requires w_bound { (w ≤ 64) × (n ≤ 16) × (0 < dx) × (dx ≤ 4096) × (0 < dy) × (dx * dy ≤ 4096) × (w * 4 ≤ length strip.old) × (4 * n * w ≤ length out.old) }
    requires m_value { (inside (pos 4095) m ≡ true) × Holds (w + 6) top.now × Holds (4 * n + 6) left.now }
    ensures { out.new ≡ block w (4 * n) (either lum m dx dy top.now left.now) out.old }
{
    let mut filters = taps::table::chroma_table();
    if lum {
        filters = taps::table::luma_table();
    }
    z2_by(w, n, lum, &filters, dx, dy, m, top, left, strip, out);
}
