// One of two numbers.
#![tactic(auto)]

ghost use Rattle.std.specs.Prelude.{◌≡◌, cond, min, max};

// The smaller of two.
pub fn min(a: usize, b: usize) -> usize
    ensures { result ≡ min a b }
{
    if a < b { a } else { b }
}

// The larger of two.
pub fn max(a: usize, b: usize) -> usize
    ensures { result ≡ max a b }
{
    if a < b { b } else { a }
}

// The first or the second, without a branch.
pub fn select(first: bool, a: i32, b: i32) -> i32
    ensures { result ≡ cond first a b }
{
    if first { a } else { b }
}
