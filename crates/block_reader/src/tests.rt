// The tests of a block's parts (document 02, request (iv)): 43 and 44.
ghost use Rattle.std.specs.Prelude.{◌≡◌, ◌+◌, ◌≤◌, length};
ghost use Rattle.block_image.specs.Rules.{bytes_from, is_used, all_zero};

use block_image::format::Format;
use numbers::plan::Plan;

// Whether n bytes from place i on are zero: whether their largest is. It is found without a branch, so many bytes are looked at at a time.
pub fn all_zero(bytes: &[u8], o: usize, i: usize, n: usize) -> bool
    requires { o + i + n ≤ length bytes.now }
    ensures { result ≡ all_zero (bytes_from bytes.now o) i n }
{
    let start = o + i;
    let end = start + n;
    let largest = bytes[start..end]
        .iter()
        .fold(0u8, |largest, byte| largest.max(*byte));
    largest == 0
}

// Whether block k may say that it uses so many rows.
#[tactic(auto, unfolding(block_image::specs::Rules::is_used))]
pub fn is_used(f: Format, last: bool, k: usize, used: usize) -> bool
    requires { (f.rows ≤ 508) × (k ≤ 1024) }
    ensures { result ≡ is_used f last k used }
{
    1 <= used && used <= f.rows && (last || used == f.rows) && k * f.rows + used <= Plan::MOST
}
