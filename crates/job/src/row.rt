// A job's row of sixteen words (document 01, Ranges and numbers that name things).
ghost use Rattle.std.specs.Prelude.{◌≡◌, ◌≤◌, length};
ghost use Rattle.job.specs.Row.{word, spec_of, start_of};
ghost use Rattle.job.specs.Rules.{has_differences};

use block_spec::spec::IntraRefSpec;
use row_words::flag::Flag;
use row_words::word::Word;

// A word of the row.
pub fn word(row: &[u16], w: Word) -> u16
    requires { length row.now ≡ 16 }
    ensures { result ≡ word row.now w }
{
    let i = w.place();
    row[i]
}

// The words that the edges are built from.
pub fn spec_of(row: &[u16]) -> IntraRefSpec
    requires { length row.now ≡ 16 }
    ensures { result ≡ spec_of row.now }
{
    let flags = word(row, Word::FlagWord);
    IntraRefSpec {
        x: word(row, Word::X),
        y: word(row, Word::Y),
        b: word(row, Word::Side),
        d: word(row, Word::Bits),
        have_above: Flag::Above.is_in(flags),
        have_left: Flag::Left.is_in(flags),
        top_right: word(row, Word::TopRight),
        bottom_left: word(row, Word::BottomLeft),
        available_above: word(row, Word::AvailableAbove),
        available_left: word(row, Word::AvailableLeft),
        base: word(row, Word::Base),
    }
}

// Where the job's differences start.
pub fn start_of(row: &[u16]) -> u32
    requires { length row.now ≡ 16 }
    ensures { (result ≡ start_of row.now) × (result ≤ 1048560) }
{
    16 * word(row, Word::Differences) as u32
}

// Refusal 7: the differences of the block lie in a list of n.
pub fn has_differences(n: usize, row: &[u16]) -> bool
    requires { length row.now ≡ 16 }
    ensures { result ≡ has_differences n row.now }
{
    let b = word(row, Word::Side) as usize;
    start_of(row) as usize + b * b <= n
}
