// A predicted block is written into the plane: "Written sample: prediction plus difference, clipped to 0..M." (document 01, From samples to edges)
#![tactic(auto)]

ghost use Rattle.std.specs.Prelude.{◌≡◌, true, ◌+◌, ◌*◌, ◌≤◌, pos, length};
ghost use Rattle.signed.specs.Range.{inside};
ghost use Rattle.lists.specs.Fill.{tab};
ghost use Rattle.paint.specs.Block.{Whole, Wholes, with_difference, added_at, Room};
ghost use Rattle.paint.specs.Painted.{painted};

// A predicted sample with its difference.
fn add(v: f32, difference: i16, m: i32) -> f32
    requires { Whole v × (inside (pos 4095) m ≡ true) }
    ensures { result ≡ with_difference m v difference }
{
    taps::value::clipped(v as i32 + difference as i32, m) as f32
}

// A row of predicted samples with their differences.
fn add_row(block: &[f32], differences: &[i16], m: i32, row: &mut [f32])
    requires row_in_bounds { (length row.old ≤ length block.now) × (length row.old ≤ length differences.now) }
    requires wholes { Wholes (length row.old) block.now × (inside (pos 4095) m ≡ true) }
    ensures { row.new ≡ tab (length row.old) (added_at m block.now differences.now) }
{
    let mut c = 0;
    while c < row.len() {
        row[c] = add(block[c], differences[c], m);
        c += 1;
    }
}

// The block at column x and row y: its rows lie `width` samples apart.
pub fn write_block(
    plane: &mut [f32],
    width: usize,
    x: usize,
    y: usize,
    bs: usize,
    m: i32,
    block: &[f32],
    differences: &[i16],
)
    requires room { Room (length plane.old) width x y bs × (bs * bs ≤ length block.now) × (bs * bs ≤ length differences.now) }
    requires wholes { Wholes (bs * bs) block.now × (inside (pos 4095) m ≡ true) }
    ensures { plane.new ≡ painted width (record { x = x; y = y; w = bs; h = bs }) (λ r c. added_at m block.now differences.now (r * bs + c)) plane.old }
{
    let mut o = y * width + x;
    let mut k = 0;
    let mut r = 0;
    while r < bs {
        let e = o + bs;
        let n = k + bs;
        add_row(&block[k..n], &differences[k..n], m, &mut plane[o..e]);
        o += width;
        k = n;
        r += 1;
    }
}
