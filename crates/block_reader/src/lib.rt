// A plan's rows, read from blocks of 512 bytes (document 02, requests (iv) and (v)). The calls take any input; read_blocks serves
// any format that fits.
#![tactic(auto)]

mod blocks;
pub mod read;
mod take;
mod tests;

ghost use Rattle.block_image.specs.Image.{plan_format, tower_format};
ghost use Rattle.block_image.specs.Promises.{outputs, ReadPlan};

use block_image::format::Format;
use numbers::answer::Answer;

// Done, with the plan's rows in `plan` and their count in `rows`; or the first refusal of 40 to 45, with nothing written.
pub fn read_plan(bytes: &[u8], plan: &mut [u16], rows: &mut [usize]) -> Answer
    ensures { ReadPlan plan_format bytes.now (outputs plan.old rows.old) (outputs plan.new rows.new) result }
{
    read::read_blocks(Format::plan(), bytes, plan, rows)
}

// The same with request (v)'s numbers: a row has thirty-two words.
pub fn read_tower_plan(bytes: &[u8], plan: &mut [u16], rows: &mut [usize]) -> Answer
    ensures { ReadPlan tower_format bytes.now (outputs plan.old rows.old) (outputs plan.new rows.new) result }
{
    read::read_blocks(Format::tower(), bytes, plan, rows)
}
