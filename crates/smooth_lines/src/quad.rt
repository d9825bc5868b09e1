// Rows of four, without a loop: the compiler makes no vector loop of so short a one.
ghost use Rattle.std.specs.Prelude.{◌≡◌, ◌-◌, ◌≤◌, ◌<◌, pos, nat_abs, length, get_or};
ghost use Rattle.lists.specs.Fill.{tab};
ghost use Rattle.lists.specs.Block.{sample};
ghost use Rattle.smooth_steps.specs.Parts.{edge_at, weighed, Step, Entries, Weights};

// A row from four entries of the edge above.
pub(crate) fn quad_row(above: &[i32], e: u32, w: u32, m: u32, k: u32, v: u32, row: &mut [f32])
    requires { (length row.old ≡ 4) × Entries above.now 4 × Step e w m k × (v < 64) }
    ensures { row.new ≡ tab (length row.old) (λ c. sample (pos (weighed m e (nat_abs (edge_at above.now c)) w v))) }
{
    let x = smooth_steps::entry_sample(above[0], e, w, m, k, v);
    let y = smooth_steps::entry_sample(above[1], e, w, m, k, v);
    let z = smooth_steps::entry_sample(above[2], e, w, m, k, v);
    let u = smooth_steps::entry_sample(above[3], e, w, m, k, v);
    row[0] = x;
    row[1] = y;
    row[2] = z;
    row[3] = u;
}

// A row of four columns from an entry of the edge at the left.
pub fn quad_across(l: u32, e: u32, m: u32, k: u32, weights: &[u8], row: &mut [f32])
    requires { (length row.old ≡ 4) × (m ≡ 4) × Step e 0 m k × (l ≤ 4095) × Weights weights.now 4 4 }
    ensures { row.new ≡ tab (length row.old) (λ c. sample (pos (weighed m e l (m - 1 - c) (get_or weights.now c 0)))) }
{
    let x = smooth_steps::smooth_sample(l, e, m - 1, m, k, weights[0] as u32);
    let y = smooth_steps::smooth_sample(l, e, m - 2, m, k, weights[1] as u32);
    let z = smooth_steps::smooth_sample(l, e, m - 3, m, k, weights[2] as u32);
    let u = smooth_steps::smooth_sample(l, e, m - 4, m, k, weights[3] as u32);
    row[0] = x;
    row[1] = y;
    row[2] = z;
    row[3] = u;
}
