// "Bit depth D is 8, 10 or 12; M = 2^D - 1." (document 01, Ranges and numbers that name things)
ghost use Rattle.std.specs.Prelude.{◌≡◌, pos};
ghost use Rattle.numbers.specs.Depth.{depth_of, bits_of, most};

use crate::answer::Refusal;

#[derive(Clone, Copy, Debug, PartialEq, Eq)]
pub enum Depth {
    Eight,
    Ten,
    Twelve,
}

impl Depth {
    // The largest M of the three.
    pub const LARGEST: i32 = 4095;

    // The depth's M.
    pub fn max(self) -> i32
        ensures { result ≡ pos (most (bits_of self)) }
    {
        match self {
            Depth::Eight => 255,
            Depth::Ten => 1023,
            Depth::Twelve => Depth::LARGEST,
        }
    }
}

// The depth whose D the word is.
impl TryFrom<u16> for Depth {
    type Error = Refusal;

    ghost try_from_gives = { λ d found. found ≡ depth_of d };

    fn try_from(d: u16) -> Result<Depth, Refusal> {
        match d {
            8 => Ok(Depth::Eight),
            10 => Ok(Depth::Ten),
            12 => Ok(Depth::Twelve),
            _ => Err(Refusal::BadDepth),
        }
    }
}
