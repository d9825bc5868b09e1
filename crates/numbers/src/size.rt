// "Block size B is 4, 8, 16, 32 or 64." (document 01, Ranges and numbers that name things)
ghost use Rattle.std.specs.Prelude.{◌≡◌};
ghost use Rattle.numbers.specs.Size.{size_of};

use crate::answer::Refusal;

#[derive(Clone, Copy, Debug, PartialEq, Eq)]
pub enum Size {
    B4,
    B8,
    B16,
    B32,
    B64,
}

impl Size {
    // Twice the largest B: how many entries an edge output has.
    pub const REF_CAP: usize = 128;
}

// The size whose B the word is.
impl TryFrom<u16> for Size {
    type Error = Refusal;

    ghost try_from_gives = { λ b found. found ≡ size_of b };

    fn try_from(b: u16) -> Result<Size, Refusal> {
        match b {
            4 => Ok(Size::B4),
            8 => Ok(Size::B8),
            16 => Ok(Size::B16),
            32 => Ok(Size::B32),
            64 => Ok(Size::B64),
            _ => Err(Refusal::BadSize),
        }
    }
}
