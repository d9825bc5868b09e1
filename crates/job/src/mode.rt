// The mode of a row: refusal 3 (document 01, Refusal numbers, in order of checking).
ghost use Rattle.std.specs.Prelude.{◌≡◌, length};
ghost use Rattle.job.specs.Mode.{row_mode};

use crate::row;
use numbers::answer::Refusal;
use row_words::flag::Flags;
use row_words::mode::Mode;
use row_words::word::Word;

// The row's mode, where it names one and no flag bit is stray; or refusal 3.
pub fn mode_of(row: &[u16]) -> Result<Mode, Refusal>
    requires { length row.now ≡ 16 }
    ensures { result ≡ row_mode row.now }
{
    if !Flags::no_stray(row::word(row, Word::FlagWord)) {
        return Err(Refusal::BadMode);
    }
    let mode = row::word(row, Word::ModeWord);
    let direction = row::word(row, Word::DirectionWord);
    let delta = row::word(row, Word::DeltaWord);
    Mode::of(mode, direction, delta)
}
