// What the programs that print a plan's file share: `show_plan` and `show_tower` are `show` at their format's sizes.
#![tactic(auto)]

ghost use Rattle.std.specs.Prelude.{◌≤◌, length};
ghost use Rattle.io.specs.Counts.{IsPrefixLen};

use std::convert::AsSlice;
use std::io::Read;

// Whether standard input is at its end: where a read failed, what came before it must not pass for a shorter file.
pub fn is_ended(rt: &impl Input) -> bool {
    let mut byte = [0; 1];
    matches!(rt.reader().read(&mut byte), Ok(0))
}

// Standard input's bytes, at the start of a buffer, and how many they are: fewer than it holds where the input ends or a read fails.
pub fn read(rt: &impl Input, buf: &mut [u8]) -> usize
    ensures { IsPrefixLen result buf.new }
{
    file_bytes::read_full(&mut rt.reader(), buf)
}

// Says that a read failed.
pub fn tell_unread(rt: &impl Eprint) {
    let _ = eprintln!(rt; "show-plan: standard input cannot be read");
}

// A page, written at once; or it is told that it cannot be.
pub fn print<R: Print + Eprint>(rt: &R, text: &[u8]) {
    if rt.write_all(text).is_err() {
        let _ = eprintln!(rt; "show-plan: standard output cannot be written");
    }
}

// Reads a plan's file from standard input and prints its page, written at once. `page` makes it, at the start of `text`, and answers how long it is.
// Nothing is printed before the whole file is read and tested. An input that fills the room for a file is taken as it stands, whatever follows.
pub fn show<R, P, T, F>(rt: &R, file: &mut [u8], plan: &mut P, text: &mut T, page: F)
where
    R: Input + Print + Eprint,
    T: AsSlice<u8>,
    F: FnOnce(&[u8], &mut P, &mut T) -> usize,
    requires callable { F.IsAlwaysCallable page }
    requires in_bounds { (b : _) (p : _) (t : _) (r : _) (p' : _) (t' : _) → F.post page b p t r p' t' → r ≤ length (T.items t'.now) }
{
    let n = read(rt, file);
    if n < file.len() && !is_ended(rt) {
        tell_unread(rt);
        return;
    }
    let len = page(&file[..n], plan, text);
    print(rt, &text.as_slice()[..len]);
}
