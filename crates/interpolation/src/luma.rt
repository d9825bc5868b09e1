// Rows by four taps: sample i is from the entries i .. i + 3 of a list. A row of four has its own way, without a loop.
ghost use Rattle.std.specs.Prelude.{◌≡◌, true, ◌≤◌, ◌+◌, pos, length, get_or};
ghost use Rattle.signed.specs.Range.{inside, Edge};
ghost use Rattle.lists.specs.Fill.{tab};
ghost use Rattle.lists.specs.Block.{sample};
ghost use Rattle.taps.specs.Interp.{luma, Taps};

use taps::value;

// Sample i.
fn luma_at(list: &[i32], i: usize, f0: i32, f1: i32, f2: i32, f3: i32, m: i32) -> f32
    requires i_in_bounds { (i + 4 ≤ length list.now) × Edge 4095 (i + 4) list.now }
    requires taps { Taps f0 f1 f2 f3 × (inside (pos 4095) m ≡ true) }
    ensures { result ≡ sample (luma m f0 f1 f2 f3 (λ k. get_or list.now k (pos 0)) i) }
{
    value::luma_sample(
        f0,
        f1,
        f2,
        f3,
        list[i],
        list[i + 1],
        list[i + 2],
        list[i + 3],
        m,
    )
}

pub fn luma_quad(list: &[i32], f0: i32, f1: i32, f2: i32, f3: i32, m: i32, row: &mut [f32])
    requires row_len { (length row.old ≡ 4) × (7 ≤ length list.now) × Edge 4095 7 list.now }
    requires taps { Taps f0 f1 f2 f3 × (inside (pos 4095) m ≡ true) }
    ensures { row.new ≡ tab (length row.old) (λ i. sample (luma m f0 f1 f2 f3 (λ k. get_or list.now k (pos 0)) i)) }
{
    let x = luma_at(list, 0, f0, f1, f2, f3, m);
    let y = luma_at(list, 1, f0, f1, f2, f3, m);
    let z = luma_at(list, 2, f0, f1, f2, f3, m);
    let u = luma_at(list, 3, f0, f1, f2, f3, m);
    row[0] = x;
    row[1] = y;
    row[2] = z;
    row[3] = u;
}

pub fn luma_long(list: &[i32], f0: i32, f1: i32, f2: i32, f3: i32, m: i32, row: &mut [f32])
    requires row_in_bounds { (length row.old + 3 ≤ length list.now) × Edge 4095 (length row.old + 3) list.now }
    requires taps { Taps f0 f1 f2 f3 × (inside (pos 4095) m ≡ true) }
    ensures { row.new ≡ tab (length row.old) (λ i. sample (luma m f0 f1 f2 f3 (λ k. get_or list.now k (pos 0)) i)) }
{
    let mut i = 0;
    while i < row.len() {
        row[i] = luma_at(list, i, f0, f1, f2, f3, m);
        i += 1;
    }
}
