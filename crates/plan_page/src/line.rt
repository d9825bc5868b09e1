// The lines of a plan: "a line a job, its index and sixteen words in decimal, one space between" (document 02, request (iv)).
ghost use Rattle.std.specs.Prelude.{◌∷◌, ◌+◌, ◌*◌, ◌≤◌, ◌<◌, length};
ghost use Rattle.plan_page.specs.Page.{space, decimal, line_of, lines_to};
ghost use Rattle.plan_page.specs.Put.{Put};

use crate::put;

// A space and a word.
fn put_word(w: u16, out: &mut [u8], at: usize) -> usize
    requires { at + 6 ≤ length out.old }
    ensures { Put (space ∷ decimal w) at out.old result out.new }
{
    let end = put::put_byte(b' ', out, at);
    put::put_number(w as u64, out, end)
}

// The line of job i.
fn put_line(i: usize, row: &[u16], out: &mut [u8], at: usize) -> usize
    requires { (i < 100000) × (at + 6 * (length row.now + 1) ≤ length out.old) }
    ensures { Put (line_of i row.now) at out.old result out.new }
{
    let mut end = put::put_number(i as u64, out, at);
    let mut j = 0;
    while j < row.len() {
        end = put_word(row[j], out, end);
        j += 1;
    }
    put::put_byte(b'\n', out, end)
}

// The lines of the first n rows of a plan with so many words in a row.
pub fn put_lines(words: usize, plan: &[u16], n: usize, out: &mut [u8]) -> usize
    requires { (n ≤ 1024) × (n * words ≤ length plan.now) × (n * (6 * (words + 1)) ≤ length out.old) }
    ensures { Put (lines_to words plan.now n) 0 out.old result out.new }
{
    let mut end = 0;
    let mut start = 0;
    let mut i = 0;
    while i < n {
        let next = start + words;
        end = put_line(i, &plan[start..next], out, end);
        start = next;
        i += 1;
    }
    end
}
