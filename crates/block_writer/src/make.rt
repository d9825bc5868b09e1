// One block, made (document 02, request (iv)).
ghost use Rattle.std.specs.Prelude.{◌≡◌, true, ◌+◌, ◌-◌, ◌*◌, ◌≤◌, length};
ghost use Rattle.lists.specs.Fill.{tab, filled};
ghost use Rattle.block_image.specs.Bytes.{check_of};
ghost use Rattle.block_image.specs.Rules.{bytes_from, all_zero};
ghost use Rattle.block_writer.specs.Made.{word_byte, head_byte, made_byte};

use crate::put;
use block_words::check::{check_of, sum_of};

// The index, the count of rows, and zeros up to place `lead`.
fn make_head(k: u32, used: u32, lead: usize, part: &mut [u8])
    requires { (8 ≤ lead) × (lead ≤ length part.old) }
    ensures { part.new ≡ filled lead (head_byte k used) part.old }
{
    put::put_word(k, &mut part[0..4]);
    put::put_word(used, &mut part[4..8]);
    part[8..lead].fill(0);
}

// Words, and zeros after them.
fn make_rows(words: &[u16], part: &mut [u8])
    requires { 2 * length words.now ≤ length part.old }
    ensures { part.new ≡ tab (length part.old) (word_byte words.now) }
{
    let end = 2 * words.len();
    put::put_words(words, &mut part[0..end]);
    part[end..].fill(0);
}

// The check of a block whose bytes from `end` on are zero up to the check: those need not be added up.
fn made_check(part: &[u8], end: usize) -> u32
    requires { (508 ≤ length part.now) × (end ≤ 508) × (all_zero (bytes_from part.now 0) end (508 - end) ≡ true) }
    ensures { result ≡ check_of (bytes_from part.now 0) }
{
    if end < 508 {
        return sum_of(part, 0, (end + 3) / 4);
    }
    check_of(part, 0)
}

// The whole block.
pub fn make_block(k: u32, used: u32, lead: usize, words: &[u16], part: &mut [u8])
    requires { (8 ≤ lead) × (lead + 2 * length words.now ≤ 508) × (length part.old ≡ 512) }
    ensures { part.new ≡ tab (length part.old) (made_byte k used lead words.now) }
{
    make_head(k, used, lead, part);
    make_rows(words, &mut part[lead..508]);
    let check = made_check(part, lead + 2 * words.len());
    put::put_word(check, &mut part[508..512]);
}
