// One sample's terms (document 01, Colour parameters), and what a depth gives to them. The code takes twelve binary digits of each, whatever the values
// are, so that no test is waited for; of a sample in range these are the terms.
ghost use Rattle.std.specs.Prelude.{◌≡◌, ◌≤◌};
ghost use Rattle.numbers.specs.Depth.{bits_of};
ghost use Rattle.colour_samples.specs.Depth.{OfDepth};
ghost use Rattle.colour_samples.specs.Nine.{TermsMost};
ghost use Rattle.colour_samples.specs.Way.{low, low_square, low_terms};

use numbers::depth::Depth;

// What a depth gives: D, M, 8M+7 and the middle of the range.
#[derive(Clone, Copy)]
pub struct DepthTerms {
    pub d: u32,
    pub most: i32,
    pub top: i32,
    pub middle: u32,
    ghost of_depth: { OfDepth d most top middle },
}

impl DepthTerms {
    // What the depth gives whose D is d.
    pub fn of(depth: Depth, d: u32) -> DepthTerms
        requires { bits_of depth ≡ d }
        ensures { result.d ≡ d }
    {
        let m = depth.max();
        DepthTerms {
            d,
            most: m,
            top: 8 * m + 7,
            middle: colour_terms::middle(depth) as u32,
        }
    }
}

// The values of one place: the direction's luma, the centre, which is luma too, and chroma.
#[derive(Clone, Copy)]
pub struct Sample {
    pub own: i32,
    pub centre: i32,
    pub chroma: i32,
}

// The last twelve binary digits of z.
pub fn low(z: i32) -> u32
    ensures { (result ≡ low z) × (result ≤ 4095) }
{
    (z & Depth::LARGEST) as u32
}

// The square of c with the middle of the range added, at depth d: its last twelve binary digits.
fn square(c: u32, middle: u32, d: u32) -> u32
    requires { (c ≤ 4095) × (middle ≤ 4095) × (d ≤ 12) }
    ensures { (result ≡ low_square c middle d) × (result ≤ 4095) }
{
    ((c * c + middle) >> d) & Depth::LARGEST as u32
}

// "Terms: the direction's luma >> 3, (c x c + 2^(D-1)) >> D, and 2^(D-1)."
#[derive(Clone, Copy)]
pub struct Terms {
    pub own: u32,
    pub square: u32,
    pub middle: u32,
}

impl Terms {
    // The terms of a sample.
    pub fn of(s: Sample, depth: DepthTerms) -> Terms
        ensures { (result ≡ low_terms depth.d s.own s.centre) × TermsMost 4095 result }
    {
        Terms {
            own: low(colour_terms::eighth(s.own)),
            square: square(low(colour_terms::eighth(s.centre)), depth.middle, depth.d),
            middle: depth.middle,
        }
    }
}
