// A plan's rows, written as blocks of 512 bytes (document 02, requests (iv) and (v)). The calls take any input; write_blocks serves any
// format that fits.
#![tactic(auto)]

mod make;
mod put;
pub mod write;

ghost use Rattle.block_image.specs.Image.{plan_format, tower_format};
ghost use Rattle.block_image.specs.Promises.{outputs, WritePlan};

use block_image::format::Format;
use numbers::answer::Answer;

// Done, with the plan's image in `out` and the count of its bytes in `length`; or the first refusal of 21 and 45, with nothing written.
pub fn write_plan(plan: &[u16], out: &mut [u8], length: &mut [usize]) -> Answer
    ensures { WritePlan plan_format plan.now (outputs out.old length.old) (outputs out.new length.new) result }
{
    write::write_blocks(Format::plan(), plan, out, length)
}

// The same with request (v)'s numbers: a row has thirty-two words.
pub fn write_tower_plan(plan: &[u16], out: &mut [u8], length: &mut [usize]) -> Answer
    ensures { WritePlan tower_format plan.now (outputs out.old length.old) (outputs out.new length.new) result }
{
    write::write_blocks(Format::tower(), plan, out, length)
}
