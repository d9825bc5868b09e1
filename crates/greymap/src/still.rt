// A still's text: one plain greymap, or three of one size and one largest value, one after the other: a colour still's luma, Cb and Cr.
use crate::fault::Fault;
use crate::{Greymap, header};
use std::fmt;
use text::word;

#[derive(Clone, Copy, Debug, PartialEq, Eq)]
pub enum Still {
    Grey(Greymap),
    Colour(Greymap),
}

// The number of the greymap that is wrong, from 1 on, and what is wrong with it.
#[derive(Clone, Copy, Debug, PartialEq, Eq)]
pub struct StillFault {
    pub number: u8,
    pub fault: Fault,
}

// The number is told of a further greymap.
impl fmt::Display for StillFault {
    fn fmt<W: fmt::Write>(&self, f: &mut fmt::Formatter<W>) -> fmt::Result {
        let StillFault { number, fault } = *self;
        if 1 < number {
            write!(f, "greymap {number}: ")?;
        }
        write!(f, "{fault}")
    }
}

impl Fault {
    // As the fault of a still's greymap, by its number.
    pub fn of(self, number: u8) -> StillFault {
        StillFault {
            number,
            fault: self,
        }
    }
}

// The text from the next greymap on, if one follows. Nothing else may.
fn next_map(s: &[u8]) -> Result<Option<&[u8]>, Fault> {
    let rest = word::past_blanks(s);
    if rest.is_empty() {
        return Ok(None);
    }
    header::past_word(rest).ok_or(Fault::TooMuch)?;
    Ok(Some(rest))
}

// The greymap at the front, and the text from the next one on.
fn read_map<'a>(s: &'a [u8], plane: &mut [f32]) -> Result<(Greymap, Option<&'a [u8]>), Fault> {
    let (g, rest) = crate::read(s, plane)?;
    Ok((g, next_map(rest)?))
}

// The same of a further greymap, which is as large as the still's first.
fn read_alike<'a>(
    s: &'a [u8],
    first: Greymap,
    plane: &mut [f32],
) -> Result<Option<&'a [u8]>, Fault> {
    let (g, rest) = crate::read(s, plane)?;
    if g != first {
        return Err(Fault::OtherSize);
    }
    next_map(rest)
}

// The still that a text is, its samples in the planes' first places: a grey still's in the first plane alone.
pub fn read(
    s: &[u8],
    luma: &mut [f32],
    cb: &mut [f32],
    cr: &mut [f32],
) -> Result<Still, StillFault> {
    let (g, second) = read_map(s, luma).map_err(|fault| fault.of(1))?;
    let Some(second) = second else {
        return Ok(Still::Grey(g));
    };
    let third = read_alike(second, g, cb)
        .and_then(|third| third.ok_or(Fault::Two))
        .map_err(|fault| fault.of(2))?;
    match read_alike(third, g, cr) {
        Ok(None) => Ok(Still::Colour(g)),
        Ok(Some(_)) => Err(Fault::TooMuch.of(3)),
        Err(fault) => Err(fault.of(3)),
    }
}
