// A plain greymap: its header, and its samples row by row. Comments may stand before each number of the header and before the first sample. A side
// that is not whole blocks is refused, not padded.
#![tactic(auto)]

pub mod fault;
mod header;
pub mod still;

ghost use Rattle.std.specs.Prelude.{◌≤◌};

use fault::Fault;
use series::checked;
use text::word;

// How many blocks there are across and down, and the depth D.
#[derive(Clone, Copy, Debug, PartialEq, Eq)]
pub struct Greymap {
    pub across: u8,
    pub down: u8,
    pub d: u16,
}

impl Greymap {
    pub fn width(self) -> usize
        ensures { result ≤ 2040 }
    {
        8 * usize::from(self.across)
    }

    pub fn height(self) -> usize {
        8 * usize::from(self.down)
    }

    // How many blocks there are, each of which is a job.
    pub fn jobs(self) -> usize
        ensures { result ≤ 65025 }
    {
        usize::from(product(self.across, self.down))
    }

    // How many samples there are.
    pub fn area(self) -> usize {
        64 * self.jobs()
    }

    // The largest value of a sample.
    fn largest(self) -> u16 {
        match self.d {
            8 => 255,
            10 => 1023,
            _ => 4095,
        }
    }
}

pub fn product(a: u8, b: u8) -> u16
    ensures { result ≤ 65025 }
{
    u16::from(a) * u16::from(b)
}

// The greymap at a text's front, its samples in the plane's first places, and the text after it.
pub fn read<'a>(s: &'a [u8], plane: &mut [f32]) -> Result<(Greymap, &'a [u8]), Fault> {
    let rest = header::past_word(s).ok_or(Fault::NoGreymap)?;
    let (across, rest) = header::side(rest, Fault::BadWidth)?;
    let (down, rest) = header::side(rest, Fault::BadHeight)?;
    let (d, rest) = header::depth(rest)?;
    let g = Greymap { across, down, d };
    let samples = plane.get_mut(..g.area()).ok_or(Fault::NoRoom)?;
    let rest = checked::samples(word::past_comments(rest), g.largest(), samples)?;
    Ok((g, rest))
}
