// The text that is printed of a plan's file: "a line a job, its index and sixteen words in decimal, one space between, or else only the refusal number"
// (document 02, request (iv)), or "all thirty-two words" (request (v)). The whole file is read and accepted before a line is made.
#![tactic(auto)]

mod line;
pub mod pages;
mod put;

ghost use Rattle.std.specs.Prelude.{◌≡◌, take};
ghost use Rattle.io.specs.Counts.{IsPrefixLen};
ghost use Rattle.block_image.specs.Image.{plan_format, tower_format};
ghost use Rattle.plan_page.specs.Page.{page_of};
ghost use Rattle.plan_page.specs.Promises.{page_lists, ShowPage};

use block_image::format::Format;

// The file's text at the start of `out`; answers how many bytes it has. `plan` has room for every plan: 1,024 rows of 16 words. `out` has room for every
// page: 1,024 lines of 17 numbers, each of at most five digits and with one byte after it.
pub fn page(bytes: &[u8], plan: &mut [u16; 16384], out: &mut [u8; 104448]) -> usize
    ensures prefix_len { IsPrefixLen result out.new }
    ensures out_after { take result out.new ≡ page_of plan_format bytes.now }
    ensures show_page { ShowPage plan_format bytes.now (page_lists plan.old out.old) (page_lists plan.new out.new) result }
{
    pages::put_page(Format::plan(), bytes, plan, out)
}

// The same of a file whose rows have thirty-two words: room for 1,024 rows of 32 words, and for 1,024 lines of 33 numbers.
pub fn tower_page(bytes: &[u8], plan: &mut [u16; 32768], out: &mut [u8; 202752]) -> usize
    ensures prefix_len { IsPrefixLen result out.new }
    ensures out_after { take result out.new ≡ page_of tower_format bytes.now }
    ensures show_page { ShowPage tower_format bytes.now (page_lists plan.old out.old) (page_lists plan.new out.new) result }
{
    pages::put_page(Format::tower(), bytes, plan, out)
}
