// The numbers of a line, which is one case of the list. Each is found by how many stand before it.

// The text from a line's first number on.
#[derive(Clone, Copy)]
pub struct Line<'a>(pub &'a [u8]);

impl<'a> Line<'a> {
    // The text after n numbers.
    pub fn past(self, n: usize) -> &'a [u8] {
        let mut rest = self.0;
        for _ in 0..n {
            rest = crate::number(rest).1;
        }
        rest
    }

    pub fn number(self, n: usize) -> u32 {
        crate::number(self.past(n)).0
    }

    pub fn signed(self, n: usize) -> i32 {
        self.number(n).cast_signed()
    }

    pub fn word(self, n: usize) -> u16 {
        (self.number(n) % 65536) as u16
    }

    pub fn size(self, n: usize) -> usize {
        self.number(n) as usize
    }

    pub fn flag(self, n: usize) -> bool {
        self.number(n) == 1
    }
}

// Whether a line ends here: not at the text's end.
pub fn ends(s: &[u8]) -> bool {
    s.starts_with(b"\n")
}
