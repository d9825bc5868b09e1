// One sample: its three terms, and the clip to 0..M (document 01, Colour parameters).
ghost use Rattle.std.specs.Prelude.{◌≡◌, ◌≤◌, ◌<◌, ◌^◌, pos, nat_abs, ◌+ℤ◌};
ghost use Rattle.fixed_product.specs.Product.{mul_fixed, short_limit};
ghost use Rattle.product_table.specs.Wide.{half_of};
ghost use Rattle.colour_row.specs.Sample.{clip_to, clipped};
ghost use Rattle.colour_row.specs.Mixed.{MixReady, Short, Luma, mixed};
ghost use Rattle.colour_row.specs.Wides.{Both};

use crate::mix::Mix;

// x clipped to 0..m.
fn clip(x: i32, m: i32) -> i32
    ensures { result ≡ clip_to (pos 0) m x }
{
    if x < 0 {
        0
    } else if m < x {
        m
    } else {
        x
    }
}

// The short product: a times n, which is below a's limit, rounded by a's half.
fn short(a: i32, n: i32, half: i32) -> i32
    requires { (n ≡ pos (nat_abs n)) × (nat_abs n < short_limit a) × (half ≡ half_of a) }
    ensures { result ≡ mul_fixed a n 16 }
{
    (a * n + half) >> 16
}

// The sum of what the terms give, clipped.
fn sum(x: i32, y: i32, k: Mix) -> i32
    requires { MixReady k × (nat_abs x ≤ 2 ^ 29) × (nat_abs y ≤ 2 ^ 29) }
    ensures { result ≡ clipped k.bits (x +ℤ y +ℤ k.third) }
{
    clip(x + y + k.third, k.max)
}

// A sample of a block whose products are all short.
pub fn short_sample(n: i32, c: i32, k: Mix) -> i32
    requires { MixReady k × Short k × Luma k n × Luma k c }
    ensures { result ≡ mixed k n c }
{
    let e = colour_terms::eighth(n);
    let s = colour_terms::squared(colour_terms::eighth(c), k.mid, k.bits);
    sum(short(k.p0, e, k.half0), short(k.p1, s, k.half1), k)
}

// A sample of any block, whose parameters' tables are t0 and t1.
pub fn wide_sample(n: i32, c: i32, k: Mix, t0: &[i64], t1: &[i64]) -> i32
    requires { MixReady k × Both k t0.now t1.now × Luma k n × Luma k c }
    ensures { result ≡ mixed k n c }
{
    let e = colour_terms::eighth(n);
    let s = colour_terms::squared(colour_terms::eighth(c), k.mid, k.bits);
    let x = product_table::mul_wide(k.p0, t0, e);
    let y = product_table::mul_wide(k.p1, t1, s);
    sum(x, y, k)
}
