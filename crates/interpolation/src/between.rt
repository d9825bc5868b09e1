// Samples at places along a list, told in 64ths of an entry: from one sample to the next the base moves by one entry, and the phase stays.
ghost use Rattle.std.specs.Prelude.{◌≡◌, true, ◌≤◌, ◌<◌, ◌+◌, ◌*◌, ◌/◌, pos, length, get_or};
ghost use Rattle.signed.specs.Range.{inside, Edge};
ghost use Rattle.lists.specs.Fill.{tab};
ghost use Rattle.lists.specs.Block.{sample};
ghost use Rattle.taps.specs.Interp.{between as at, Taps};
ghost use Rattle.taps.specs.Quads.{table_of, tap, tapped};

use crate::{chroma, luma};

// Four samples.
fn between_quad(list: &[i32], filters: &[[i32; 4]; 32], f: usize, m: i32, row: &mut [f32])
    requires row_len { (length row.old ≡ 4) × (7 ≤ length list.now) × Edge 4095 7 list.now }
    requires f_bound { (f < 32) × Taps (tap filters.now f 0) (tap filters.now f 1) (tap filters.now f 2) (tap filters.now f 3) × (inside (pos 4095) m ≡ true) }
    ensures { row.new ≡ tab (length row.old) (λ i. sample (tapped filters.now m f (λ k. get_or list.now k (pos 0)) i)) }
{
    let t = filters[f];
    luma::luma_quad(list, t[0], t[1], t[2], t[3], m, row);
}

// Sample i is at q + 64 i. The table is the plane's.
pub fn between(list: &[i32], lum: bool, filters: &[[i32; 4]; 32], q: usize, m: i32, row: &mut [f32])
    requires row_in_bounds { (q / 64 + length row.old + 3 ≤ length list.now) × Edge 4095 (q / 64 + length row.old + 3) list.now }
    requires filters_value { (filters.now ≡ table_of lum) × (inside (pos 4095) m ≡ true) }
    ensures { row.new ≡ tab (length row.old) (λ i. sample (at lum m (λ k. get_or list.now k (pos 0)) (q + 64 * i))) }
{
    let base = q / 64;
    let f = q % 64 / 2;
    if row.len() == 4 {
        between_quad(&list[base..], filters, f, m, row);
    } else if lum {
        let t = filters[f];
        luma::luma_long(&list[base..], t[0], t[1], t[2], t[3], m, row);
    } else {
        let from = base + 1;
        chroma::chroma_long(&list[from..], (32 - f) as i32, f as i32, m, row);
    }
}
