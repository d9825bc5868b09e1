// The page of a file of any format that fits: the lines of its plan, or the number of its refusal.
ghost use Rattle.std.specs.Prelude.{◌≡◌, [], ◌∷◌, ◌++◌, ◌+◌, ◌*◌, ◌≤◌, length};
ghost use Rattle.numbers.specs.Limits.{most_jobs};
ghost use Rattle.numbers.specs.Answer.{refusal_number};
ghost use Rattle.block_image.specs.Fits.{Fits};
ghost use Rattle.plan_page.specs.Page.{line_end, decimal};
ghost use Rattle.plan_page.specs.Promises.{page_lists, ShowPage};
ghost use Rattle.plan_page.specs.Put.{Put};

use crate::{line, put};
use block_image::format::Format;
use block_reader::read::read_blocks;
use numbers::answer::Refusal;

// The number of a refusal, and a line end.
fn put_refusal(refusal: Refusal, out: &mut [u8]) -> usize
    requires { 6 ≤ length out.old }
    ensures { Put (decimal (refusal_number refusal) ++ (line_end ∷ [])) 0 out.old result out.new }
{
    let end = put::put_number(refusal.number() as u64, out, 0);
    put::put_byte(b'\n', out, end)
}

// The page, at the start of `out`; `plan` has room for every plan.
pub fn put_page(f: Format, bytes: &[u8], plan: &mut [u16], out: &mut [u8]) -> usize
    requires { Fits f × (length plan.old ≡ most_jobs * f.words) × (most_jobs * (6 * (f.words + 1)) ≤ length out.old) }
    ensures { ShowPage f bytes.now (page_lists plan.old out.old) (page_lists plan.new out.new) result }
{
    let mut rows = [0usize; 1];
    match read_blocks(f, bytes, plan, &mut rows) {
        Err(refusal) => put_refusal(refusal, out),
        Ok(()) => {
            let n = rows[0];
            let words = f.words;
            let end = n * words;
            line::put_lines(words, &plan[..end], n, out)
        }
    }
}
