// The blocks: row after row of `out[..bs * bs]`. No corner is looked at: 0 stands for it.
ghost use Rattle.std.specs.Prelude.{◌≡◌, ◌-◌, ◌*◌, ◌≤◌, pos, nat_abs, length, get_or};
ghost use Rattle.lists.specs.Block.{block};
ghost use Rattle.direct_calls.specs.Given.{Given};
ghost use Rattle.smooth_steps.specs.Parts.{edge_at, weighed, Entries, Step, Weights};
ghost use Rattle.smooth_spec.specs.Smooth.{smooth_v_at, smooth_h_at, smooth_at};

// A block of smooth_v samples.
pub fn smooth_v_into(bs: usize, above: &[i32], left: &[i32], out: &mut [f32])
    requires { Given bs 4095 above.now left.now (pos 0) (length out.old) }
    ensures { out.new ≡ block bs bs (smooth_v_at bs above.now left.now (pos 0)) out.old }
{
    let weights = smooth_weights::weights_of(smooth_weights::scale_of(bs));
    smooth_rows::smooth_v_rows(
        bs,
        smooth_weights::log2_of(bs),
        above,
        smooth_steps::natural(left[bs]),
        &weights,
        out,
    );
}

// The rows of a smooth_h block, with a line of numbers to work in.
fn lined_h_rows(
    bs: usize,
    k: u32,
    left: &[i32],
    e: u32,
    weights: &[u8],
    reach: usize,
    out: &mut [f32],
)
    requires entries { Entries left.now bs × Step e 0 bs k × (bs ≤ 64) × (bs * bs ≤ length out.old) }
    requires weights { Weights weights.now bs reach }
    ensures { out.new ≡ block bs bs (λ r c. pos (weighed bs e (nat_abs (edge_at left.now r)) (bs - 1 - c) (get_or weights.now c 0))) out.old }
{
    let mut line = [0u32; 64];
    smooth_rows::smooth_h_rows(bs, k, left, e, weights, reach, &mut line, out);
}

// A block of smooth_h samples.
pub fn smooth_h_into(bs: usize, above: &[i32], left: &[i32], out: &mut [f32])
    requires { Given bs 4095 above.now left.now (pos 0) (length out.old) }
    ensures { out.new ≡ block bs bs (smooth_h_at bs above.now left.now (pos 0)) out.old }
{
    let s = smooth_weights::scale_of(bs);
    let weights = smooth_weights::weights_of(s);
    let reach = smooth_weights::reach_of(s);
    let k = smooth_weights::log2_of(bs);
    let e = smooth_steps::natural(above[bs]);
    if bs == 4 {
        smooth_rows::quad_h_rows(bs, k, left, e, &weights, out);
    } else {
        lined_h_rows(bs, k, left, e, &weights, reach, out);
    }
}

// A block of smooth samples.
pub fn smooth_into(bs: usize, above: &[i32], left: &[i32], out: &mut [f32])
    requires { Given bs 4095 above.now left.now (pos 0) (length out.old) }
    ensures { out.new ≡ block bs bs (smooth_at bs above.now left.now (pos 0)) out.old }
{
    let s = smooth_weights::scale_of(bs);
    let weights = smooth_weights::weights_of(s);
    let reach = smooth_weights::reach_of(s);
    let mut line = [0u32; 64];
    let e = smooth_steps::natural(left[bs]);
    let f = smooth_steps::natural(above[bs]);
    smooth_rows::smooth_rows(
        bs,
        smooth_weights::log2_of(bs),
        above,
        e,
        left,
        f,
        &weights,
        reach,
        &mut line,
        out,
    );
}
