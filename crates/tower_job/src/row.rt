// A tower's row of thirty-two words (document 02, request (v)).
ghost use Rattle.std.specs.Prelude.{◌≡◌, length};
ghost use Rattle.job.specs.Row.{word};
ghost use Rattle.tower_job.specs.Row.{base_row, tower_word, is_colour_mode};

use row_words::word::Word;
use tower_words::mode::ColourMode;
use tower_words::word::TowerWord;

// A word of the first library's.
pub fn base_word(row: &[u16], w: Word) -> u16
    requires { length row.now ≡ 32 }
    ensures { result ≡ word (base_row row.now) w }
{
    let i = w.place();
    row[i]
}

// One of the words after them.
pub fn word(row: &[u16], w: TowerWord) -> u16
    requires { length row.now ≡ 32 }
    ensures { result ≡ tower_word row.now w }
{
    let i = w.place();
    row[i]
}

// Whether its mode is colour.
pub fn is_colour(row: &[u16]) -> bool
    requires { length row.now ≡ 32 }
    ensures { result ≡ is_colour_mode row.now }
{
    base_word(row, Word::ModeWord) == ColourMode::NUMBER
}
