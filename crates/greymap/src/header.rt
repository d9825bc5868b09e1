// A plain greymap's header: P2, its width, its height and its largest value, with blanks or comments between them.
ghost use Rattle.std.specs.Prelude.{◌≤◌, IfOk};

use crate::fault::Fault;
use text::word;
use text::word::WordFault;

// The most samples along a side.
const MOST: u32 = 64;

// The text after the word P2, if it stands at the front.
pub fn past_word(s: &[u8]) -> Option<&[u8]> {
    let rest = s.strip_prefix(b"P2")?;
    let end = *rest.first()?;
    word::is_end(end).then_some(rest)
}

// A number that is at most `most`, and the text after it; `too_large` is what is wrong with any other.
fn number(s: &[u8], most: u32, too_large: Fault) -> Result<(u32, &[u8]), Fault>
    ensures { IfOk result (λ r. r.0 ≤ most) }
{
    word::number(word::past_comments(s), most).map_err(|why| match why {
        WordFault::TooLarge => too_large,
        WordFault::NoNumber | WordFault::Nothing => Fault::NoHeader,
    })
}

// The blocks along a side, and the text after it; `bad` is what is wrong with a side that is not whole blocks.
pub fn side(s: &[u8], bad: Fault) -> Result<(u8, &[u8]), Fault> {
    let (samples, rest) = number(s, MOST, bad)?;
    if samples == 0 || samples % 8 != 0 {
        return Err(bad);
    }
    Ok(((samples / 8) as u8, rest))
}

// "Bit depth D is 8, 10 or 12; M = 2^D - 1." (document 01)
pub fn depth(s: &[u8]) -> Result<(u16, &[u8]), Fault> {
    let (most, rest) = number(s, 4095, Fault::BadLargest)?;
    match most {
        255 => Ok((8, rest)),
        1023 => Ok((10, rest)),
        4095 => Ok((12, rest)),
        _ => Err(Fault::BadLargest),
    }
}
