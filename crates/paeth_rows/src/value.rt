// One sample. With x = top - corner and y = left - corner, b = left + top - corner lies |x| from left, |y| from top and |x + y| from corner.
ghost use Rattle.std.specs.Prelude.{◌≡◌, ◌+◌, ◌^◌, ◌≤◌, ◌<◌, pos, nat_abs, neg_ℤ, ◌-ℤ◌};
ghost use Rattle.lists.specs.Block.{sample};
ghost use Rattle.paeth_rows.specs.Chosen.{chosen};

// How near a is to b: minus their distance, so that the compiler compares numbers with a sign, as the processor does.
fn nearness(a: i32, b: i32) -> i32
    requires { nat_abs a + nat_abs b < 2 ^ 31 }
    ensures { result ≡ neg_ℤ (pos (nat_abs (a -ℤ b))) }
{
    if a > b { b - a } else { a - b }
}

// The nearest of left, top and corner to left + top - corner, chosen by how far it lies from corner.
fn paeth_single(left: i32, top: i32, corner: i32) -> i32
    requires { (nat_abs left ≤ 4095) × (nat_abs top ≤ 4095) × (nat_abs corner ≤ 4095) }
    ensures { result ≡ chosen left top corner }
{
    let to_left = nearness(top, corner);
    let to_top = nearness(left, corner);
    let x = top - corner;
    let y = left - corner;
    let to_corner = nearness(x + y, 0);
    let other = minmax::select(to_top >= to_corner, x, 0);
    let nearest = minmax::select(to_left >= to_corner, y, other);
    corner + minmax::select(to_left >= to_top, nearest, other)
}

// The same as a sample.
pub(crate) fn paeth_sample(left: i32, top: i32, corner: i32) -> f32
    requires { (nat_abs left ≤ 4095) × (nat_abs top ≤ 4095) × (nat_abs corner ≤ 4095) }
    ensures { result ≡ sample (chosen left top corner) }
{
    paeth_single(left, top, corner) as f32
}
