// The left part of zone 2 in a strip of four rows. "its column walk stops at the first column that no row's left part reaches" (document 01,
// Directions)
ghost use Rattle.std.specs.Prelude.{◌≡◌, true, ◌+◌, ◌*◌, ◌-◌, ◌≤◌, ◌<◌, pos, length, get_or};
ghost use Rattle.signed.specs.Range.{inside};
ghost use Rattle.lists.specs.Fill.{filled};
ghost use Rattle.lists.specs.Block.{rows, sample};
ghost use Rattle.taps.specs.Quads.{table_of};
ghost use Rattle.taps.specs.Interp.{between};
ghost use Rattle.zone_rows.specs.Listed.{Holds};
ghost use Rattle.zone_spec.specs.Split.{split_of};

// The columns of the strip from row r0 on, from the left edge: those before the split of its last row, which is the strip's last to be reached. The walk
// is left where no row of the strip is still in its left part; the columns that it passed are written.
pub fn left_columns(
    w: usize,
    r0: usize,
    lum: bool,
    filters: &[[i32; 4]; 32],
    dx: usize,
    dy: usize,
    m: i32,
    left: &[i32],
    strip: &mut [f32],
) -> usize
    requires w_bound { (w ≤ 64) × (r0 ≤ 60) × (0 < dx) × (dx ≤ 4096) × (0 < dy) × (dx * dy ≤ 4096) × (w * 4 ≤ length strip.old) }
    requires m_value { (inside (pos 4095) m ≡ true) × (filters.now ≡ table_of lum) × Holds (r0 + 10) left.now }
    ensures value { result ≡ split_of w ((r0 + 4) * dx) }
    ensures strip_after { strip.new ≡ filled (result * 4) (rows 4 (λ c j. sample (between lum m (λ i. get_or left.now i (pos 0)) (64 * (r0 + 4) - (c + 1) * dy + 64 * j)))) strip.old }
{
    let end = r0 + 4;
    let mut q = 64 * end;
    let mut o = 0;
    let mut y = r0;
    let mut c = 0;
    'walk: while c < w {
        while (y + 1) * dx <= 64 * (c + 1) {
            y += 1;
            if y == end {
                break 'walk;
            }
        }
        let e = o + 4;
        q -= dy;
        interpolation::between::between(left, lum, filters, q, m, &mut strip[o..e]);
        o = e;
        c += 1;
    }
    c
}
