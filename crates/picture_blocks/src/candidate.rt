// The predictors that are tried on a block, by number: 0 to 3 the plain modes, and from 4 on the directions, each with its seven deltas. And which of
// those that are tried comes nearest.
use std::ops::Range;

// A job's words that name it.
#[derive(Clone, Copy, Debug, PartialEq, Eq)]
pub struct Candidate {
    pub mode: u16,
    pub direction: u16,
    pub delta: u16,
}

impl Candidate {
    pub const COUNT: u8 = 60;

    pub fn of(number: u8) -> Candidate {
        let number = u16::from(number);
        if number < 4 {
            Candidate {
                mode: number,
                direction: 0,
                delta: 0,
            }
        } else {
            Candidate {
                mode: 4,
                direction: (number - 4) / 7,
                delta: (number - 4) % 7,
            }
        }
    }
}

// What was taken, by its number, and how far it is off the block.
#[derive(Clone, Copy, Debug, Default, PartialEq, Eq)]
pub struct Choice {
    pub number: u8,
    pub error: u32,
}

// The nearest of some numbers, the first of them on a tie; one that cannot be tried has no error.
pub fn nearest<F: FnMut(u8) -> Option<u32>>(numbers: Range<u8>, mut error_of: F) -> Choice
    requires { F.IsAlwaysCallable error_of }
{
    let mut best = Choice {
        number: numbers.start,
        error: u32::MAX,
    };
    for number in numbers {
        if let Some(error) = error_of(number)
            && error < best.error
        {
            best = Choice { number, error };
        }
    }
    best
}
