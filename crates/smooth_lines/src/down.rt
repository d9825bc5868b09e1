// Rows from the edge above: each entry t is reached from the end e by w parts of m = 2^k, and then by v parts of 64. Most rows have no v.
ghost use Rattle.std.specs.Prelude.{◌≡◌, ℕ, ◌≤◌, ◌<◌, pos, nat_abs, length, get_or};
ghost use Rattle.lists.specs.Fill.{tab};
ghost use Rattle.lists.specs.Block.{sample};
ghost use Rattle.smooth_steps.specs.Parts.{edge_at, part, weighed, mean, Step, Entries};

use crate::quad;

// A row without weight.
fn ramp_row(above: &[i32], e: u32, w: u32, m: u32, k: u32, row: &mut [f32])
    requires { Entries above.now (length row.old) × Step e w m k }
    ensures { row.new ≡ tab (length row.old) (λ c. sample (pos (part m e (nat_abs (edge_at above.now c)) w))) }
{
    let rest = e * (m - w) + m / 2;
    let mut c = 0;
    while c < row.len() {
        row[c] = smooth_steps::to_sample(smooth_steps::ramp_to(above[c], e, w, m, k, rest));
        c += 1;
    }
}

// A row with the weight v.
fn smooth_row(above: &[i32], e: u32, w: u32, m: u32, k: u32, v: u32, row: &mut [f32])
    requires { Entries above.now (length row.old) × Step e w m k × (v < 64) }
    ensures { row.new ≡ tab (length row.old) (λ c. sample (pos (weighed m e (nat_abs (edge_at above.now c)) w v))) }
{
    let rest = e * (m - w) + m / 2;
    let mut c = 0;
    while c < row.len() {
        row[c] = smooth_steps::to_sample(smooth_steps::smooth_to(above[c], e, w, m, k, rest, v));
        c += 1;
    }
}

// The mean of such a row and a line of numbers.
pub fn mean_row(
    above: &[i32],
    e: u32,
    w: u32,
    m: u32,
    k: u32,
    v: u32,
    line: &[u32],
    row: &mut [f32],
)
    requires entries { Entries above.now (length row.old) × Step e w m k × (v < 64) }
    requires row_in_bounds { (length row.old ≤ length line.now) × ((i : ℕ) → i < length row.old → get_or line.now i 0 ≤ 4095) }
    ensures { row.new ≡ tab (length row.old) (λ c. sample (pos (mean (weighed m e (nat_abs (edge_at above.now c)) w v) (get_or line.now c 0)))) }
{
    let rest = e * (m - w) + m / 2;
    let mut c = 0;
    while c < row.len() {
        let down = smooth_steps::smooth_to(above[c], e, w, m, k, rest, v);
        row[c] = smooth_steps::to_sample(smooth_steps::mean_of(down, line[c]));
        c += 1;
    }
}

// A row with the weight v, which most rows do not have; a row of four has its own way.
pub fn weighted_row(above: &[i32], e: u32, w: u32, m: u32, k: u32, v: u32, row: &mut [f32])
    requires { Entries above.now (length row.old) × Step e w m k × (v < 64) }
    ensures { row.new ≡ tab (length row.old) (λ c. sample (pos (weighed m e (nat_abs (edge_at above.now c)) w v))) }
{
    if row.len() == 4 {
        quad::quad_row(above, e, w, m, k, v, row);
    } else if v == 0 {
        ramp_row(above, e, w, m, k, row);
    } else {
        smooth_row(above, e, w, m, k, v, row);
    }
}
