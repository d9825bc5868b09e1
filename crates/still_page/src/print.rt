// Text and numbers of a page, piece by piece: each text and each number of a format is a write of its own, and is tried whatever became of those before
// it. So an output that is full gets every piece that still fits. A short piece of several parts is printed by `print!`, which makes one write of up to
// 1,024 bytes.
use std::fmt;
use std::fmt::Write;

// What writes each piece by itself.
#[derive(Drop)]
struct Pieces<'a, P>(&'a P);

impl<P: Print> Write for Pieces<'_, P> {
    fn write_str(&mut self, piece: &str) -> fmt::Result {
        let _ = self.0.write_all(piece.as_bytes());
        Ok(())
    }
}

// The pieces of a format, or one text or number.
pub fn say<T: fmt::Display + Drop>(to: &impl Print, text: T) {
    let _ = Pieces(to).write(text);
}

// A number that ends in the last of so many columns: its blanks, up to sixteen, are one piece, and its digits the next.
#[derive(Clone, Copy)]
pub struct Column {
    n: u64,
    columns: usize,
}

impl fmt::Display for Column {
    fn fmt<W: Write>(&self, f: &mut fmt::Formatter<W>) -> fmt::Result {
        let digits = self.n.checked_ilog10().map_or(1, |log| log as usize + 1);
        let blanks = self.columns.saturating_sub(digits);
        write!(f, "{:blanks$}{}", "", self.n)
    }
}

// With no columns the number stands by itself.
pub fn right(n: u64, columns: usize) -> Column {
    Column { n, columns }
}
