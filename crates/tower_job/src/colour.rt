// The words of mode 5, read from a tower's row (document 02, request (v)).
ghost use Rattle.std.specs.Prelude.{◌≡◌, length};
ghost use Rattle.tower_job.specs.Row.{colour_of_row};

use crate::row;
use colour_words::ColourWords;
use row_words::word::Word;
use tower_words::word::TowerWord;

// The colour words of a row.
pub fn colour_of(row: &[u16]) -> ColourWords
    requires { length row.now ≡ 32 }
    ensures { result ≡ colour_of_row row.now }
{
    ColourWords {
        x: row::base_word(row, Word::X),
        y: row::base_word(row, Word::Y),
        d: row::base_word(row, Word::Bits),
        direction: row::word(row, TowerWord::ColourWord),
        above_lines: row::word(row, TowerWord::AboveLines),
        left_lines: row::word(row, TowerWord::LeftLines),
        ref_width: row::word(row, TowerWord::RefWidth),
        ref_height: row::word(row, TowerWord::RefHeight),
        width: row::word(row, TowerWord::Width),
        height: row::word(row, TowerWord::Height),
        luma_x: row::word(row, TowerWord::LumaX),
        luma_y: row::word(row, TowerWord::LumaY),
        have_top: row::word(row, TowerWord::HaveTop) == 1,
        have_left: row::word(row, TowerWord::HaveLeft) == 1,
    }
}
