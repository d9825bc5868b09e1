// Lines from an entry l of the edge at the left: column c is reached from the end e by m - 1 - c parts of m = 2^k, and then by its own weight's parts
// of 64. From one column to the next the numerator changes by e - l, so that no product is left; the columns past the weights need none.
ghost use Rattle.std.specs.Prelude.{◌≡◌, ℕ, ◌+◌, ◌-◌, ◌≤◌, ◌<◌, pos, nat_abs, length, get_or};
ghost use Rattle.lists.specs.Fill.{tab, filled};
ghost use Rattle.lists.specs.Block.{sample};
ghost use Rattle.smooth_steps.specs.Parts.{edge_at, part, weighed, Step, Entries, Weights};

// The columns from `from` on, without weights.
fn ramp_line(l: u32, e: u32, m: u32, k: u32, from: usize, line: &mut [u32])
    requires { Step e 0 m k × (l ≤ 4095) × (from + length line.old ≤ m) }
    ensures { line.new ≡ tab (length line.old) (λ c. part m e l (m - 1 - (from + c))) }
{
    let passed = from as u32;
    let mut number = l * (m - passed) + e * passed + m / 2;
    let mut c = 0;
    while c < line.len() {
        number = number + e - l;
        line[c] = number >> k;
        c += 1;
    }
}

// The first columns, with their weights.
fn weighted_line(l: u32, e: u32, m: u32, k: u32, weights: &[u8], line: &mut [u32])
    requires step { Step e 0 m k × (l ≤ 4095) × (length line.old ≤ m) }
    requires line_in_bounds { (length line.old ≤ length weights.now) × ((i : ℕ) → i < length line.old → get_or weights.now i 0 < 64) }
    ensures { line.new ≡ tab (length line.old) (λ c. weighed m e l (m - 1 - c) (get_or weights.now c 0)) }
{
    let mut number = l * m + m / 2;
    let mut c = 0;
    while c < line.len() {
        number = number + e - l;
        line[c] = smooth_steps::weigh(number >> k, l, weights[c] as u32);
        c += 1;
    }
}

// A whole line, from entry r of the edge at the left: the first `reach` columns have weights, and the others none.
pub fn across(
    left: &[i32],
    r: usize,
    e: u32,
    bs: usize,
    k: u32,
    weights: &[u8],
    reach: usize,
    line: &mut [u32],
)
    requires { Step e 0 bs k × Entries left.now bs × (r < bs) × (bs ≤ length line.old) × Weights weights.now bs reach }
    ensures { line.new ≡ filled bs (λ c. weighed bs e (nat_abs (edge_at left.now r)) (bs - 1 - c) (get_or weights.now c 0)) line.old }
{
    let m = bs as u32;
    let l = smooth_steps::natural(left[r]);
    let start = 0;
    weighted_line(l, e, m, k, weights, &mut line[start..reach]);
    ramp_line(l, e, m, k, reach, &mut line[reach..bs]);
}

// A line as samples.
pub fn sample_row(line: &[u32], row: &mut [f32])
    requires { (length row.old ≤ length line.now) × ((i : ℕ) → i < length row.old → get_or line.now i 0 ≤ 4095) }
    ensures { row.new ≡ tab (length row.old) (λ c. sample (pos (get_or line.now c 0))) }
{
    let mut c = 0;
    while c < row.len() {
        row[c] = smooth_steps::to_sample(line[c]);
        c += 1;
    }
}
