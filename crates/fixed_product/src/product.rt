// The product of two numbers with digits after the point, `mul_fixed32_adapt` of mhccp.rs (document 01, Colour parameters). Factors with more than 29
// binary digits together are shifted first. `limit` tells where none is shifted.
ghost use Rattle.std.specs.Prelude.{◌≡◌, ◌≤◌, ◌^◌, ◌-◌, nat_abs};
ghost use Rattle.fixed_product.specs.Product.{ilog2, digits, rounded, mul_fixed, short_limit};

// The place of the highest set bit; 0 for 0, as for 1.
pub fn ilog2(x: u32) -> u32
    ensures { result ≡ ilog2 x }
{
    (x | 1).ilog2()
}

// How many binary digits |a| has: 1 to 32.
pub fn digits(a: i32) -> u32
    ensures { (result ≡ digits a) × (result ≤ 32) }
{
    ilog2(a.unsigned_abs()) + 1
}

// p / 2 ^ k rounded to the nearest, halves away from 0, with no branch: a shift rounds down, so a negative number has one less added.
fn away(p: i32, k: u32) -> i32
    requires { (nat_abs p ≤ 2 ^ 30) × (1 ≤ k) × (k ≤ 29) }
    ensures { result ≡ rounded p k }
{
    let half: u32 = 1 << (k - 1);
    (p + half as i32 + (p >> 31)) >> k
}

// The same for any k: 0 leaves p, and above 29 nothing is left.
fn rounded(p: i32, k: u32) -> i32
    requires { nat_abs p ≤ 2 ^ 30 }
    ensures { result ≡ rounded p k }
{
    match k {
        0 => p,
        1..=29 => away(p, k),
        _ => 0,
    }
}

// a times b, shifted down by `shift` and rounded, with digits dropped first where the two have more than 29.
pub fn mul_fixed32_adapt(a: i32, b: i32, shift: u32) -> i32
    ensures { result ≡ mul_fixed a b shift }
{
    let need = (digits(a) + digits(b)).saturating_sub(29);
    let s1 = need / 2;
    let s2 = need - s1;
    rounded((a >> s1) * (b >> s2), shift.saturating_sub(need))
}

// A second factor below this, and not negative, leaves no digit over: `mul_fixed32_fits` of mhccp.rs.
pub fn limit(a: i32) -> u32
    ensures { result ≡ short_limit a }
{
    let n = digits(a);
    if n <= 28 { 1 << (29 - n) } else { 0 }
}
