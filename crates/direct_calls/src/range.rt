// "a plane sample or edge entry that is read is not a number in 0..M" (document 01, refusal 8), of edge entries.
ghost use Rattle.std.specs.Prelude.{◌≡◌, ◌&&◌, ◌≤◌, length};
ghost use Rattle.signed.specs.Range.{inside, all_inside};

// Whether x is in 0..m.
#[tactic(auto, unfolding(signed::specs::Range::inside))]
pub fn in_range(x: i32, m: i32) -> bool
    ensures { result ≡ inside m x }
{
    0 <= x && x <= m
}

// Whether the first n entries of both lists are in 0..m: one walk over the two.
#[tactic(auto, unfolding(signed::specs::Range::all_inside))]
pub fn both_in_range(xs: &[i32], ys: &[i32], n: usize, m: i32) -> bool
    requires { (n ≤ length xs.now) × (n ≤ length ys.now) }
    ensures { result ≡ (all_inside m xs.now n && all_inside m ys.now n) }
{
    let mut ok = true;
    for i in 0..n {
        ok &= in_range(xs[i], m) & in_range(ys[i], m);
    }
    ok
}
