// Numbers of a text that others wrote: a word that is no number, or one that is too large, is told and never passed over.
ghost use Rattle.std.specs.Prelude.{◌≤◌, length, IfOk};

use crate::{next_line, split_before};

// Why no number stands at the front.
#[derive(Clone, Copy, Debug, PartialEq, Eq)]
pub enum WordFault {
    NoNumber,
    TooLarge,
    Nothing,
}

// Space, tab, line feed, vertical tab, form feed, carriage return.
pub fn is_blank(b: u8) -> bool {
    matches!(b, b' ' | 9..=13)
}

// The text from its first byte on that is no blank.
pub fn past_blanks(s: &[u8]) -> &[u8]
    ensures { length result.now ≤ length s.now }
{
    split_before(s, |b| !is_blank(b)).1
}

// The text from its first byte on that belongs to neither a blank nor a comment; a comment goes from # to the line's end.
pub fn past_comments(s: &[u8]) -> &[u8] {
    let mut rest = past_blanks(s);
    while rest.starts_with(b"#") {
        rest = past_blanks(next_line(rest));
    }
    rest
}

// Whether a word ends before a byte.
pub fn is_end(b: u8) -> bool {
    b == b'#' || is_blank(b)
}

// The word at the front as a number that is at most `most`, and the text after it. What is wrong is told at its first byte, however long the word is.
pub fn number(s: &[u8], most: u32) -> Result<(u32, &[u8]), WordFault>
    ensures { IfOk result (λ r. r.0 ≤ most) }
{
    if s.is_empty() {
        return Err(WordFault::Nothing);
    }
    let mut n = 0u64;
    let mut end = s.len();
    for (i, b) in s.iter().enumerate() {
        if is_end(*b) {
            end = i;
            break;
        }
        if !b.is_ascii_digit() {
            return Err(WordFault::NoNumber);
        }
        n = n * 10 + u64::from(*b - b'0');
        if n > u64::from(most) {
            return Err(WordFault::TooLarge);
        }
    }
    if end == 0 {
        return Err(WordFault::NoNumber);
    }
    Ok((n as u32, &s[end..]))
}
