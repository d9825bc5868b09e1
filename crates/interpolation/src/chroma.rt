// Rows by two taps: sample i is from the entries i and i + 1 of a list.
ghost use Rattle.std.specs.Prelude.{◌≡◌, true, ◌≤◌, ◌+◌, pos, nat_abs, length, get_or};
ghost use Rattle.signed.specs.Range.{inside, Edge};
ghost use Rattle.lists.specs.Fill.{tab};
ghost use Rattle.lists.specs.Block.{sample};
ghost use Rattle.taps.specs.Interp.{chroma};

use taps::value;

// Sample i.
fn chroma_at(list: &[i32], i: usize, g: i32, f: i32, m: i32) -> f32
    requires i_in_bounds { (i + 2 ≤ length list.now) × Edge 4095 (i + 2) list.now }
    requires g_bound { (nat_abs g ≤ 32) × (nat_abs f ≤ 32) × (inside (pos 4095) m ≡ true) }
    ensures { result ≡ sample (chroma m g f (λ k. get_or list.now k (pos 0)) i) }
{
    value::chroma_sample(g, f, list[i], list[i + 1], m)
}

pub fn chroma_long(list: &[i32], g: i32, f: i32, m: i32, row: &mut [f32])
    requires row_in_bounds { (length row.old + 1 ≤ length list.now) × Edge 4095 (length row.old + 1) list.now }
    requires g_bound { (nat_abs g ≤ 32) × (nat_abs f ≤ 32) × (inside (pos 4095) m ≡ true) }
    ensures { row.new ≡ tab (length row.old) (λ i. sample (chroma m g f (λ k. get_or list.now k (pos 0)) i)) }
{
    let mut i = 0;
    while i < row.len() {
        row[i] = chroma_at(list, i, g, f, m);
        i += 1;
    }
}
