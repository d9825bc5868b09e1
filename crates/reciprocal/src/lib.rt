// The reciprocal of a natural number, `division_scale_shift` of mhccp.rs (document 01, Colour parameters): a curve of eight pieces, each with a
// square.
#![tactic(auto)]

ghost use Rattle.std.specs.Prelude.{◌≡◌, ◌^◌, ◌<◌, ◌≤◌, unsigned_abs};
ghost use Rattle.reciprocal.specs.Division.{piece, curve, moved, scale_of};
ghost use Rattle.fixed_product.specs.Product.{ilog2};

use fixed_product::product;

// The pieces, in the tables that mhccp.rs has: the weight of each one's square, where the square is 0, and the height there.
const POW2W: [i32; 8] = [214, 153, 113, 86, 67, 53, 43, 35];

const POW2O: [i32; 8] = [4822, 5952, 6624, 6792, 6408, 5424, 3792, 1466];

const POW2B: [i32; 8] = [12784, 12054, 11670, 11583, 11764, 12195, 12870, 13782];

// A piece of the curve: w times the square of x, less half of x, above b.
fn piece(w: i32, x: i32, b: i32) -> i32
    requires { (unsigned_abs w ≤ 214) × (unsigned_abs x ≤ 23175) × (unsigned_abs b ≤ 13782) }
    ensures { result ≡ piece w x b }
{
    ((w * ((x * x) >> 14)) >> 8) - (x >> 1) + b
}

// The curve at n.
fn curve(n: u32) -> i32
    requires { n < 2 ^ 14 }
    ensures { result ≡ curve n }
{
    let i = (n / 2048) as usize;
    let x = n as i32 - POW2O[i];
    piece(POW2W[i], x, POW2B[i])
}

// d's highest bit, at place s, moved to place 14.
fn moved(d: u32, s: u32) -> u32
    requires { s ≡ ilog2 d }
    ensures { result ≡ moved d s }
{
    if s < 14 {
        d << (14 - s)
    } else if s == 14 {
        d
    } else {
        d.wrapping_add(1 << (s - 15)) >> (s - 14)
    }
}

// A reciprocal: scale / 2 ^ (16 + shift).
#[derive(Clone, Copy)]
pub struct Reciprocal {
    pub scale: i32,
    pub shift: u32,
}

// d's reciprocal, nearly; that of 0 as of 1.
pub fn division_scale_shift(d: u32) -> Reciprocal
    ensures { (result.scale ≡ scale_of d) × (result.shift ≡ ilog2 d) }
{
    let shift = product::ilog2(d);
    let n = moved(d, shift).clamp(1, 32767) % 16384;
    Reciprocal {
        scale: curve(n) * 4,
        shift,
    }
}
