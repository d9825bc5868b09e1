// The rows of a block of the smooth predictors, one after the other (document 01, The predictors), of a size bs = 2^k whose weights are given.
#![tactic(auto)]

ghost use Rattle.std.specs.Prelude.{◌≡◌, ◌-◌, ◌*◌, ◌≤◌, pos, nat_abs, length, get_or};
ghost use Rattle.lists.specs.Block.{block};
ghost use Rattle.smooth_steps.specs.Parts.{edge_at, weighed, mean, Entries, Step, Weights};

use smooth_lines::{across, down, quad};

// Down from the edge above to the end e.
pub fn smooth_v_rows(bs: usize, k: u32, above: &[i32], e: u32, weights: &[u8], out: &mut [f32])
    requires entries { Entries above.now bs × Step e 0 bs k × (bs * bs ≤ length out.old) }
    requires weights { Weights weights.now bs bs }
    ensures { out.new ≡ block bs bs (λ r c. pos (weighed bs e (nat_abs (edge_at above.now c)) (bs - 1 - r) (get_or weights.now r 0))) out.old }
{
    let m = bs as u32;
    let mut o = 0;
    let mut r = 0;
    while r < bs {
        let next = o + bs;
        let w = (bs - 1 - r) as u32;
        down::weighted_row(above, e, w, m, k, weights[r] as u32, &mut out[o..next]);
        o = next;
        r += 1;
    }
}

// Across from the edge at the left to the end e; the first `reach` columns have weights.
pub fn smooth_h_rows(
    bs: usize,
    k: u32,
    left: &[i32],
    e: u32,
    weights: &[u8],
    reach: usize,
    line: &mut [u32],
    out: &mut [f32],
)
    requires entries { Entries left.now bs × Step e 0 bs k × (bs ≤ length line.old) × (bs * bs ≤ length out.old) }
    requires weights { Weights weights.now bs reach }
    ensures { out.new ≡ block bs bs (λ r c. pos (weighed bs e (nat_abs (edge_at left.now r)) (bs - 1 - c) (get_or weights.now c 0))) out.old }
{
    let mut o = 0;
    let mut r = 0;
    while r < bs {
        let next = o + bs;
        across::across(left, r, e, bs, k, weights, reach, line);
        across::sample_row(line, &mut out[o..next]);
        o = next;
        r += 1;
    }
}

// The same in rows of four.
pub fn quad_h_rows(bs: usize, k: u32, left: &[i32], e: u32, weights: &[u8], out: &mut [f32])
    requires bs_value { (bs ≡ 4) × Entries left.now bs × Step e 0 bs k × (bs * bs ≤ length out.old) }
    requires weights { Weights weights.now bs bs }
    ensures { out.new ≡ block bs bs (λ r c. pos (weighed bs e (nat_abs (edge_at left.now r)) (bs - 1 - c) (get_or weights.now c 0))) out.old }
{
    let m = bs as u32;
    let mut o = 0;
    let mut r = 0;
    while r < bs {
        let next = o + bs;
        quad::quad_across(
            smooth_steps::natural(left[r]),
            e,
            m,
            k,
            weights,
            &mut out[o..next],
        );
        o = next;
        r += 1;
    }
}

// The mean of both, down to the end e and across to the end f.
pub fn smooth_rows(
    bs: usize,
    k: u32,
    above: &[i32],
    e: u32,
    left: &[i32],
    f: u32,
    weights: &[u8],
    reach: usize,
    line: &mut [u32],
    out: &mut [f32],
)
    requires entries { Entries above.now bs × Step e 0 bs k × Entries left.now bs × Step f 0 bs k × (bs ≤ length line.old) × (bs * bs ≤ length out.old) }
    requires weights { Weights weights.now bs reach }
    ensures { out.new ≡ block bs bs (λ r c. pos (mean (weighed bs e (nat_abs (edge_at above.now c)) (bs - 1 - r) (get_or weights.now r 0)) (weighed bs f (nat_abs (edge_at left.now r)) (bs - 1 - c) (get_or weights.now c 0)))) out.old }
{
    let m = bs as u32;
    let mut o = 0;
    let mut r = 0;
    while r < bs {
        let next = o + bs;
        across::across(left, r, f, bs, k, weights, reach, line);
        let w = (bs - 1 - r) as u32;
        down::mean_row(
            above,
            e,
            w,
            m,
            k,
            weights[r] as u32,
            line,
            &mut out[o..next],
        );
        o = next;
        r += 1;
    }
}
