// "Refusals: .. in mode 5 then 4 .., 10, 11 (sizes alone), 12" (document 02, request (v)): a row is tested and read into a job.
ghost use Rattle.std.specs.Prelude.{◌≡◌, true, length};
ghost use Rattle.refusals.specs.Ladder.{ladder};
ghost use Rattle.tower_job.specs.Row.{is_colour_mode};
ghost use Rattle.tower_job.specs.Rules.{span_rules};
ghost use Rattle.tower_job.specs.Job.{read_tower};

use crate::tower::{TowerJob, TowerMode};
use crate::{base, colour, row, tests};
use colour_terms::reference::Reference;
use colour_words::ColourWords;
use numbers::answer::{Answer, Refusal};
use numbers::colour::ColourDirection;
use numbers::depth::Depth;
use tower_words::word::TowerWord;

// 4, 10, 11 and 12 of mode 5.
fn span_answer(width: usize, height: usize, c: ColourWords) -> Answer
    ensures { result ≡ ladder (span_rules width height c) }
{
    if !tests::is_in_planes(width, height, c) {
        return Err(Refusal::OutsidePlane);
    }
    ColourDirection::try_from(c.direction as u32)?;
    let r = Reference {
        width: c.ref_width as usize,
        height: c.ref_height as usize,
    };
    if !r.is_sizes() {
        return Err(Refusal::BadReference);
    }
    if !tests::is_colour_lines(c) {
        return Err(Refusal::BadLines);
    }
    Ok(())
}

// The job of a row in mode 5, or the refusal.
fn read_colour(width: usize, height: usize, n: usize, row: &[u16]) -> Result<TowerJob, Refusal>
    requires { (length row.now ≡ 32) × (is_colour_mode row.now ≡ true) }
    ensures { result ≡ read_tower width height n row.now }
{
    let c = colour::colour_of(row);
    Depth::try_from(c.d)?;
    if !tests::is_tower(row) {
        return Err(Refusal::BadMode);
    }
    span_answer(width, height, c)?;
    Ok(TowerJob {
        plane: row::word(row, TowerWord::PlaneWord),
        mode: TowerMode::Colour(c),
    })
}

// The job of a row that names it, or the refusal.
pub fn read_row(width: usize, height: usize, n: usize, row: &[u16]) -> Result<TowerJob, Refusal>
    requires { length row.now ≡ 32 }
    ensures { result ≡ read_tower width height n row.now }
{
    if row::is_colour(row) {
        return read_colour(width, height, n, row);
    }
    base::read_base(width, height, n, row)
}
