// A block's check (document 02, request (iv)): 41, and what is written last.
ghost use Rattle.std.specs.Prelude.{◌≡◌, ◌+◌, ◌*◌, ◌%◌, ◌^◌, ◌≤◌, length};
ghost use Rattle.block_image.specs.Bytes.{sum_to, check_of};
ghost use Rattle.block_image.specs.Rules.{bytes_from};

use crate::bytes::word_32;

// The sum of the first n words, modulo 2 to the 32.
pub fn sum_of(bytes: &[u8], o: usize, n: usize) -> u32
    requires { o + 4 * n ≤ length bytes.now }
    ensures { result ≡ sum_to (bytes_from bytes.now o) n % 2 ^ 32 }
{
    let mut sum: u32 = 0;
    for j in 0..n {
        sum = sum.wrapping_add(word_32(bytes, o, 4 * j));
    }
    sum
}

// "the sum modulo 2 to the 32 of the 127 words before it"
pub fn check_of(bytes: &[u8], o: usize) -> u32
    requires { o + 508 ≤ length bytes.now }
    ensures { result ≡ check_of (bytes_from bytes.now o) }
{
    sum_of(bytes, o, 127)
}
