// "adding a sample hands the sums on" (document 01, Colour parameters): the nine sums, six of products of two terms and three of a term and chroma.
ghost use Rattle.std.specs.Prelude.{◌≡◌, ◌+◌, ◌*◌, ◌≤◌, ◌^◌};
ghost use Rattle.colour_samples.specs.Nine.{none, added, NineMost, TermsMost};

use crate::sample::Terms;

#[derive(Clone, Copy, Default)]
pub struct Nine {
    pub a00: u64,
    pub a01: u64,
    pub a02: u64,
    pub a11: u64,
    pub a12: u64,
    pub a22: u64,
    pub y0: u64,
    pub y1: u64,
    pub y2: u64,
}

// A sum with the product of a and b added.
fn more(sum: u64, a: u32, b: u32) -> u64
    requires { (sum ≤ 2 ^ 62) × (a ≤ 4095) × (b ≤ 4095) }
    ensures { result ≡ sum + a * b }
{
    sum + (a * b) as u64
}

impl Nine {
    // The largest sum that refusal 14 lets pass.
    pub const MOST: u64 = 2147483647;

    // No sample yet.
    pub fn new() -> Nine
        ensures { result ≡ none }
    {
        Nine::default()
    }

    // One sample more, with its terms and its chroma.
    pub fn add(self, t: Terms, chroma: u32) -> Nine
        requires { NineMost (2 ^ 62) self × TermsMost 4095 t × (chroma ≤ 4095) }
        ensures { result ≡ added self t chroma }
    {
        Nine {
            a00: more(self.a00, t.own, t.own),
            a01: more(self.a01, t.own, t.square),
            a02: more(self.a02, t.own, t.middle),
            a11: more(self.a11, t.square, t.square),
            a12: more(self.a12, t.square, t.middle),
            a22: more(self.a22, t.middle, t.middle),
            y0: more(self.y0, t.own, chroma),
            y1: more(self.y1, t.square, chroma),
            y2: more(self.y2, t.middle, chroma),
        }
    }
}
