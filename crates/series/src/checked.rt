// Samples of a text that others wrote, one after the other.
use crate::kind;
use text::word;
use text::word::WordFault;

// Why a sample, by its number from 1 on, is none.
#[derive(Clone, Copy, Debug, PartialEq, Eq)]
pub struct SampleFault {
    pub number: usize,
    pub why: WordFault,
}

// Fills a list with whole samples that are at most `most`, and hands back the text after them.
pub fn samples<'a>(s: &'a [u8], most: u16, list: &mut [f32]) -> Result<&'a [u8], SampleFault> {
    let mut rest = s;
    for (i, x) in list.iter_mut().enumerate() {
        let (n, tail) = word::number(word::past_blanks(rest), u32::from(most)).map_err(
            |why| SampleFault { number: i + 1, why },
        )?;
        *x = kind::sample(n);
        rest = tail;
    }
    Ok(rest)
}
