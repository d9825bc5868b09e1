// The sums of the fast way: products are summed in 32 bits over a line of places, and the third term, which is the same for all samples, comes in once
// at the end. The nine sums that they stand for are those that `Nine::add` makes of the same samples (`line-more` of proofs/Lined.antt).
ghost use Rattle.std.specs.Prelude.{◌≡◌, ◌+◌, ◌*◌, ◌≤◌, ◌<◌, ◌^◌};
ghost use Rattle.colour_samples.specs.Nine.{TermsMost};
ghost use Rattle.colour_lines.specs.Fast.{line_added, LineMost, plus_line, nine_of, LongMost};

use colour_samples::nine::Nine;
use colour_samples::sample::Terms;

// Sums over samples of the products of own term o, square s and chroma y, of each by itself, and how many samples they are, n.
#[derive(Clone, Copy, Default)]
pub struct PlaceSums<T> {
    pub oo: T,
    pub os: T,
    pub o: T,
    pub ss: T,
    pub s: T,
    pub n: T,
    pub oy: T,
    pub sy: T,
    pub y: T,
}

// Over a line, which has at most 256 samples.
pub type LineSums = PlaceSums<u32>;

// Over many lines.
pub type LongSums = PlaceSums<u64>;

// A sum with the product of a and b added.
fn more(sum: u32, a: u32, b: u32) -> u32
    requires { sum + a * b < 2 ^ 32 }
    ensures { result ≡ sum + a * b }
{
    sum + a * b
}

impl LineSums {
    // One sample more.
    pub fn add(self, t: Terms, chroma: u32) -> LineSums
        requires { LineMost 255 self × TermsMost 4095 t × (chroma ≤ 4095) }
        ensures { result ≡ line_added self t chroma }
    {
        LineSums {
            oo: more(self.oo, t.own, t.own),
            os: more(self.os, t.own, t.square),
            o: more(self.o, t.own, 1),
            ss: more(self.ss, t.square, t.square),
            s: more(self.s, t.square, 1),
            n: more(self.n, 1, 1),
            oy: more(self.oy, t.own, chroma),
            sy: more(self.sy, t.square, chroma),
            y: more(self.y, 1, chroma),
        }
    }
}

// A sum with the sum of a line added.
fn sum(a: u64, b: u32) -> u64
    requires { a ≤ 2 ^ 41 }
    ensures { result ≡ a + b }
{
    a + b as u64
}

impl LongSums {
    // One line more.
    pub fn plus(self, p: LineSums) -> LongSums
        requires { LongMost (2 ^ 41) self }
        ensures { result ≡ plus_line self p }
    {
        LongSums {
            oo: sum(self.oo, p.oo),
            os: sum(self.os, p.os),
            o: sum(self.o, p.o),
            ss: sum(self.ss, p.ss),
            s: sum(self.s, p.s),
            n: sum(self.n, p.n),
            oy: sum(self.oy, p.oy),
            sy: sum(self.sy, p.sy),
            y: sum(self.y, p.y),
        }
    }

    // The nine sums, with the third term in.
    pub fn nine(self, middle: u32) -> Nine
        requires { LongMost (2 ^ 41) self × (middle ≤ 2048) }
        ensures { result ≡ nine_of middle self }
    {
        let m = middle as u64;
        Nine {
            a00: self.oo,
            a01: self.os,
            a02: self.o * m,
            a11: self.ss,
            a12: self.s * m,
            a22: self.n * (m * m),
            y0: self.oy,
            y1: self.sy,
            y2: self.y * m,
        }
    }
}
