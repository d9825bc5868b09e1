// The calls on the 512-byte blocks of a plan whose rows have thirty-two words (document 02, request (v)).
ghost use Rattle.tower.specs.Blocks.{WrittenC, ReadC};
ghost use Rattle.block_image.specs.Promises.{outputs};

use numbers::answer;

// `block_writer::write_tower_plan`, by its answer's number.
#[unsafe(no_mangle)]
pub extern "C" fn tower_write_plan(plan: &[u16], out: &mut [u8], length: &mut [usize]) -> u32
    ensures { WrittenC plan.now (outputs out.old length.old) (outputs out.new length.new) result }
{
    answer::number(block_writer::write_tower_plan(plan, out, length))
}

// `block_reader::read_tower_plan`, by its answer's number.
#[unsafe(no_mangle)]
pub extern "C" fn tower_read_plan(bytes: &[u8], plan: &mut [u16], rows: &mut [usize]) -> u32
    ensures { ReadC bytes.now (outputs plan.old rows.old) (outputs plan.new rows.new) result }
{
    answer::number(block_reader::read_tower_plan(bytes, plan, rows))
}
