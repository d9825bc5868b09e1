// What is worked out once for a block: its depth's numbers, the parameters, and which product serves (document 01, Colour parameters).
ghost use Rattle.std.specs.Prelude.{◌≡◌, true, ◌&&◌, ltb, pos};
ghost use Rattle.numbers.specs.Depth.{is_depth, most};
ghost use Rattle.colour_row.specs.Mixed.{MixReady, MixOf};

use fixed_product::product;

// bits is D, mid 2^(D-1) and max M. third is what the third term gives. half0 and half1 round the products by p0 and p1. short says that every
// second factor of the block is below both limits, so that the short product serves.
#[derive(Clone, Copy)]
pub struct Mix {
    pub bits: u32,
    pub mid: i32,
    pub max: i32,
    pub p0: i32,
    pub p1: i32,
    pub third: i32,
    pub half0: i32,
    pub half1: i32,
    pub short: bool,
}

// M of the depth whose D is d.
fn max_of(d: u32) -> i32
    requires { is_depth d ≡ true }
    ensures { result ≡ pos (most d) }
{
    colour_terms::depth_of(d).unwrap().max()
}

// Whether m is below both limits.
fn is_below(m: u32, limit0: u32, limit1: u32) -> bool
    ensures { result ≡ (ltb m limit0 && ltb m limit1) }
{
    if m < limit0 { m < limit1 } else { false }
}

impl Mix {
    // What a block of depth d with these parameters needs; mid is half of M + 1.
    pub fn of(d: u32, p0: i32, p1: i32, p2: i32) -> Mix
        requires { is_depth d ≡ true }
        ensures { MixReady result × MixOf d p0 p1 p2 result }
    {
        let m = max_of(d);
        let mid = (m + 1) >> 1;
        let third = product::mul_fixed32_adapt(p2, mid, 16);
        let limit0 = product::limit(p0);
        let limit1 = product::limit(p1);
        Mix {
            bits: d,
            mid: mid,
            max: m,
            p0: p0,
            p1: p1,
            third: third,
            half0: product_table::half(p0),
            half1: product_table::half(p1),
            short: is_below(m as u32, limit0, limit1),
        }
    }
}
