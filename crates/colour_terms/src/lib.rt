// "Terms: the direction's luma >> 3, (c x c + 2^(D-1)) >> D, and 2^(D-1)." (document 01, Colour parameters): what derivation and prediction share.
#![tactic(auto)]

pub mod reference;

ghost use Rattle.std.specs.Prelude.{◌≡◌, true, ◌≤◌, pos};
ghost use Rattle.numbers.specs.Depth.{bits_of, depth_of};
ghost use Rattle.signed.specs.Range.{inside};
ghost use Rattle.colour_terms.specs.Terms.{eighth, middle, squared};

use numbers::answer::Refusal;
use numbers::depth::Depth;

// The depth whose D is d.
pub fn depth_of(d: u32) -> Result<Depth, Refusal>
    ensures { result ≡ depth_of d }
{
    let word = u16::try_from(d).map_err(|_| Refusal::BadDepth)?;
    Depth::try_from(word)
}

// A luma value without its last three binary digits: "luma >> 3".
pub fn eighth(v: i32) -> i32
    ensures { result ≡ eighth v }
{
    v >> 3
}

// "(c x c + 2^(D-1)) >> D", `non_linear` of mhccp.rs, of a c in 0..4095; bits is D, and mid 2^(D-1).
pub fn squared(c: i32, mid: i32, bits: u32) -> i32
    requires { (inside (pos 4095) c ≡ true) × (mid ≡ pos (middle bits)) × (bits ≤ 12) }
    ensures { result ≡ squared bits c }
{
    (c * c + mid) >> bits
}

// 2^(D-1), the middle of a depth's range.
pub fn middle(depth: Depth) -> i32
    ensures { result ≡ pos (middle (bits_of depth)) }
{
    match depth {
        Depth::Eight => 128,
        Depth::Ten => 512,
        Depth::Twelve => 2048,
    }
}
