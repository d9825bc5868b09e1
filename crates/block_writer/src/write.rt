// Writing a plan (document 02, request (iv)): every test first, then block after block.
ghost use Rattle.std.specs.Prelude.{◌≡◌, ◌+◌, ◌*◌, ◌≤◌, ◌<◌, length};
ghost use Rattle.lists.specs.Fill.{tab, filled};
ghost use Rattle.block_image.specs.Image.{blocks_for, block_byte, image_byte};
ghost use Rattle.block_image.specs.Fits.{Fits};
ghost use Rattle.block_image.specs.Refusals.{is_rows, write_answer};
ghost use Rattle.block_image.specs.Promises.{outputs, WritePlan};
ghost use Rattle.block_writer.specs.Made.{WholeRows};

use crate::make;
use block_image::format::Format;
use block_words::room::has_room;
use numbers::answer::{Answer, Refusal};
use numbers::plan::Plan;

// Block k of the plan.
fn one_block(f: Format, plan: &[u16], n: usize, k: usize, part: &mut [u8])
    requires { Fits f × WholeRows f plan.now n × (k < blocks_for f n) × (length part.old ≡ 512) }
    ensures { part.new ≡ tab (length part.old) (block_byte f plan.now k) }
{
    let before = k * f.rows;
    let used = f.rows.min(n - before);
    let start = before * f.words;
    let end = start + used * f.words;
    make::make_block(k as u32, used as u32, 8 + f.zeros, &plan[start..end], part);
}

// All of them.
fn all_blocks(f: Format, plan: &[u16], n: usize, blocks: usize, out: &mut [u8])
    requires { Fits f × WholeRows f plan.now n × (blocks ≡ blocks_for f n) × (512 * blocks ≤ length out.old) }
    ensures { out.new ≡ filled (512 * blocks) (image_byte f plan.now) out.old }
{
    for k in 0..blocks {
        one_block(f, plan, n, k, &mut out[512 * k..512 * k + 512]);
    }
}

// 21: whole rows, and not too many.
#[tactic(auto, unfolding(block_image::specs::Refusals::is_rows))]
fn is_rows(f: Format, plan: &[u16]) -> bool
    requires { Fits f }
    ensures { result ≡ is_rows f plan.now }
{
    plan.len() % f.words == 0 && plan.len() / f.words <= Plan::MOST
}

// How many bytes a plan of n rows takes.
fn image_size(f: Format, n: usize) -> usize
    requires { Fits f × (n ≤ 1024) }
    ensures { result ≡ 512 * blocks_for f n }
{
    512 * ((n + f.rows - 1) / f.rows)
}

// What writing answers.
#[tactic(auto, unfolding(block_image::specs::Refusals::write_answer))]
fn write_answer(f: Format, plan: &[u16], room: usize, slots: usize) -> Answer
    requires { Fits f }
    ensures { result ≡ write_answer f plan.now room slots }
{
    if !is_rows(f, plan) {
        return Err(Refusal::BadPlan);
    }
    if !has_room(image_size(f, plan.len() / f.words), room, slots) {
        return Err(Refusal::NoRoom);
    }
    Ok(())
}

// Done, with the plan's image at the start of `out` and the count of its bytes in `length`; or a refusal, with nothing written.
pub fn write_blocks(f: Format, plan: &[u16], out: &mut [u8], length: &mut [usize]) -> Answer
    requires { Fits f }
    ensures { WritePlan f plan.now (outputs out.old length.old) (outputs out.new length.new) result }
{
    write_answer(f, plan, out.len(), length.len())?;
    let n = plan.len() / f.words;
    let size = image_size(f, n);
    all_blocks(f, plan, n, size / 512, out);
    length[0] = size;
    Ok(())
}
