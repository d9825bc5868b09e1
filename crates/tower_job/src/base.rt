// A row in one of the modes 0 to 4, or above 5: its first sixteen words are tested and read as the first library's, with 3 as a tower has it.
ghost use Rattle.std.specs.Prelude.{◌≡◌, false, length};
ghost use Rattle.tower_job.specs.Row.{is_colour_mode};
ghost use Rattle.tower_job.specs.Job.{read_tower};

use crate::tower::{TowerJob, TowerMode};
use crate::{row, tests};
use block_spec::answer;
use numbers::answer::Refusal;
use row_words::word::Word;
use tower_words::word::TowerWord;

// The job of such a row, or the refusal: 1, 2 and 3 of a row whose new words break 3.
pub fn read_base(width: usize, height: usize, n: usize, row: &[u16]) -> Result<TowerJob, Refusal>
    requires { (length row.now ≡ 32) × (is_colour_mode row.now ≡ false) }
    ensures { result ≡ read_tower width height n row.now }
{
    let start = 0;
    let end = Word::COUNT;
    let words = &row[start..end];
    if !tests::is_tower(row) {
        answer::size_answer(job::row::spec_of(words))?;
        return Err(Refusal::BadMode);
    }
    let job = job::rules::read_row(width, height, n, words)?;
    Ok(TowerJob {
        plane: row::word(row, TowerWord::PlaneWord),
        mode: TowerMode::Base(job),
    })
}
