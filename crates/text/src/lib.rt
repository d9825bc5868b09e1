// Text of decimal numbers, with spaces and line ends between them, for the programs. It is read from its front: what is read and the text after it
// are handed back.
#![tactic(auto)]

pub mod line;
pub mod word;

ghost use Rattle.std.specs.Prelude.{◌<◌, ◌+◌, ◌≡◌, length};

use word::past_blanks;

// What stands before the first byte of a kind, and the text from that byte on.
fn split_before<F: Fn(u8) -> bool>(s: &[u8], is_kind: F) -> (&[u8], &[u8])
    requires { F.IsAlwaysCallable is_kind }
    ensures { length result.0.now + length result.1.now ≡ length s.now }
{
    let n = s.iter().position(|b| is_kind(*b)).unwrap_or(s.len());
    s.split_at(n)
}

// The number at the front, after blanks, modulo 2^32, and the text after it.
pub fn number(s: &[u8]) -> (u32, &[u8]) {
    let (digits, rest) = split_before(past_blanks(s), |b| !b.is_ascii_digit());
    let value = digits.iter().fold(0u32, |n, b| {
        n.wrapping_mul(10)
            .wrapping_add(u32::from(b.wrapping_sub(b'0')))
    });
    (value, rest)
}

// The text after its first line, which is shorter.
pub fn next_line(s: &[u8]) -> &[u8]
    ensures { 0 < length s.now → length result.now < length s.now }
{
    match s.iter().position(|b| *b == b'\n') {
        Some(i) => &s[i + 1..],
        None => &s[s.len()..],
    }
}
