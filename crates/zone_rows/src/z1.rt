// Zone 1 by rows: row r starts (r + 1) dx 64ths further along the list than the block does.
ghost use Rattle.std.specs.Prelude.{◌≡◌, true, ◌+◌, ◌*◌, ◌/◌, ◌≤◌, pos, length};
ghost use Rattle.signed.specs.Range.{inside};
ghost use Rattle.lists.specs.Block.{block};
ghost use Rattle.taps.specs.Quads.{table_of};
ghost use Rattle.zone_rows.specs.Listed.{ahead, Holds};

// h rows of w samples, in out[..h * w], by the taps of a table.
fn z1_by(
    w: usize,
    h: usize,
    lum: bool,
    filters: &[[i32; 4]; 32],
    dx: usize,
    m: i32,
    list: &[i32],
    out: &mut [f32],
)
    requires w_bound { (w ≤ 64) × (h ≤ 64) × (dx ≤ 4096) × (h * w ≤ length out.old) × (inside (pos 4095) m ≡ true) × (filters.now ≡ table_of lum) }
    requires holds { Holds (h * dx / 64 + w + 7) list.now }
    ensures { out.new ≡ block w h (ahead lum m dx list.now) out.old }
{
    let mut o = 0;
    let mut q = 256;
    let mut r = 0;
    while r < h {
        let e = o + w;
        q += dx;
        interpolation::between::between(list, lum, filters, q, m, &mut out[o..e]);
        o = e;
        r += 1;
    }
}

pub fn z1_rows(w: usize, h: usize, lum: bool, dx: usize, m: i32, list: &[i32], out: &mut [f32])
    requires w_bound { (w ≤ 64) × (h ≤ 64) × (dx ≤ 4096) × (h * w ≤ length out.old) × (inside (pos 4095) m ≡ true) }
    requires holds { Holds (h * dx / 64 + w + 7) list.now }
    ensures { out.new ≡ block w h (ahead lum m dx list.now) out.old }
{
    let mut filters = taps::table::chroma_table();
    if lum {
        filters = taps::table::luma_table();
    }
    z1_by(w, h, lum, &filters, dx, m, list, out);
}
