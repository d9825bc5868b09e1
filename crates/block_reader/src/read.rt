// Reading a plan (document 02, request (iv)): every test first, then the words.
ghost use Rattle.std.specs.Prelude.{◌≡◌, IfOk, IfErr, Err};
ghost use Rattle.numbers.specs.Answer.{done};
ghost use Rattle.block_image.specs.Rules.{is_whole};
ghost use Rattle.block_image.specs.Taken.{rows_of};
ghost use Rattle.block_image.specs.Fits.{Fits};
ghost use Rattle.block_image.specs.Refusals.{file_answer};
ghost use Rattle.block_image.specs.Promises.{outputs, ReadPlan};

use crate::{blocks, take};
use block_image::format::Format;
use block_words::room::has_room;
use numbers::answer::{Answer, Refusal};

// 40: whole blocks, and not too many.
#[tactic(auto, unfolding(block_image::specs::Rules::is_whole))]
fn is_whole(f: Format, n: usize) -> bool
    ensures { result ≡ is_whole f n }
{
    n % 512 == 0 && n / 512 <= f.most
}

// How many rows are read, or why reading is refused.
fn read_answer(f: Format, bytes: &[u8], room: usize, slots: usize) -> Result<usize, Refusal>
    requires { Fits f }
    ensures accepted { IfOk result (λ rows. (file_answer f bytes.now room slots ≡ done) × (rows ≡ rows_of f bytes.now)) }
    ensures refused { IfErr result (λ refusal. file_answer f bytes.now room slots ≡ Err refusal) }
{
    if !is_whole(f, bytes.len()) {
        return Err(Refusal::NotBlocks);
    }
    let rows = blocks::blocks_answer(f, bytes, bytes.len() / 512)?;
    if !has_room(rows * f.words, room, slots) {
        return Err(Refusal::NoRoom);
    }
    Ok(rows)
}

// Done, with the plan's words at the start of `plan` and the count of its rows in `rows`; or a refusal, with nothing written.
pub fn read_blocks(f: Format, bytes: &[u8], plan: &mut [u16], rows: &mut [usize]) -> Answer
    requires { Fits f }
    ensures { ReadPlan f bytes.now (outputs plan.old rows.old) (outputs plan.new rows.new) result }
{
    let count = read_answer(f, bytes, plan.len(), rows.len())?;
    take::take_plan(bytes, f.rows * f.words, 8 + f.zeros, count * f.words, plan);
    rows[0] = count;
    Ok(())
}
