// Colour directions 0, 1 and 2: whose luma is the direction's (document 01, Colour parameters; refusal 10). 0 is the centre itself, 1 the sample above
// it, 2 the one left of it: C, T and L of `derive_params` and `predict_block` of mhccp.rs.
ghost use Rattle.std.specs.Prelude.{◌≡◌};
ghost use Rattle.numbers.specs.Colour.{colour_of, the_colour, rows_up, columns_left};

use crate::answer::Refusal;

#[derive(Clone, Copy, Debug, PartialEq, Eq)]
pub enum ColourDirection {
    Centre,
    Above,
    Left,
}

impl ColourDirection {
    // The direction with a number that refusal 10 let pass; of any other, the centre, as in mhccp.rs.
    pub fn named(direction: u32) -> ColourDirection
        ensures { result ≡ the_colour direction }
    {
        ColourDirection::try_from(direction).unwrap_or(ColourDirection::Centre)
    }

    // How many rows above the centre the direction's luma stands.
    pub fn rows_up(self) -> usize
        ensures { result ≡ rows_up self }
    {
        match self {
            ColourDirection::Centre => 0,
            ColourDirection::Above => 1,
            ColourDirection::Left => 0,
        }
    }

    // How many columns left of the centre it stands.
    pub fn columns_left(self) -> usize
        ensures { result ≡ columns_left self }
    {
        match self {
            ColourDirection::Centre => 0,
            ColourDirection::Above => 0,
            ColourDirection::Left => 1,
        }
    }
}

// The direction with this number.
impl TryFrom<u32> for ColourDirection {
    type Error = Refusal;

    ghost try_from_gives = { λ direction found. found ≡ colour_of direction };

    fn try_from(direction: u32) -> Result<ColourDirection, Refusal> {
        match direction {
            0 => Ok(ColourDirection::Centre),
            1 => Ok(ColourDirection::Above),
            2 => Ok(ColourDirection::Left),
            _ => Err(Refusal::BadColourDirection),
        }
    }
}
