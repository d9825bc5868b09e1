// Lines of places of a reference window (document 01, Colour parameters), one after the other, for any kind of totals: a line is a part of a row, or of
// a column.
ghost use Rattle.std.specs.Prelude.{◌≡◌, ℕ, ◌+◌, ◌*◌, ◌^◌, ◌<◌};
ghost use Rattle.colour_samples.specs.declared.totals.Totals.{Totals};
ghost use Rattle.colour_samples.specs.Nine.{NineMost};
ghost use Rattle.colour_lines.specs.Held.{HeldPlaces, Grid};
ghost use Rattle.colour_lines.specs.TookLines.{sample_at, TookLine, TookLines};

use colour_samples::sample::{DepthTerms, Sample};
use colour_samples::totals::Totals;

// Lines of places: the centre of the first place, how many lines and how far apart, how many places in each and how far apart.
#[derive(Clone, Copy)]
pub struct Lines {
    pub at: usize,
    pub lines: usize,
    pub apart: usize,
    pub places: usize,
    pub step: usize,
}

// One line in the two lists: so many places, with the direction's luma from `own` on and the centre and chroma from `at` on.
#[derive(Clone, Copy)]
pub struct Line<'a> {
    pub luma: &'a [i32],
    pub chroma: &'a [i32],
    pub own: usize,
    pub at: usize,
    pub places: usize,
    pub step: usize,
    ghost held: { HeldPlaces own at places step luma.now chroma.now },
}

impl Line<'_> {
    // What stands at place i.
    pub fn sample(self, i: usize) -> Sample
        requires { i < self.places }
        ensures { let l = self.entry in result ≡ sample_at l.luma.now l.chroma.now (l.own + i * l.step) (l.at + i * l.step) }
    {
        let far = i * self.step;
        Sample {
            own: self.luma[self.own + far],
            centre: self.luma[self.at + far],
            chroma: self.chroma[self.at + far],
        }
    }
}

// A kind of totals that lines of places are taken into.
pub trait Tally {
    // The totals that it stands for, at depth D.
    ghost stands_for: { ℕ → Self → Totals };

    // One line more.
    fn line(self, l: Line<'_>, depth: DepthTerms) -> Self
        requires { NineMost (2 ^ 41) (stands_for depth.d self).sums }
        ensures { let p = l.entry in TookLine depth.d p.luma.now p.chroma.now p.own p.at p.places p.step (stands_for depth.d self) (stands_for depth.d result) };

    // These totals.
    fn totals(self, depth: DepthTerms) -> Totals
        requires { NineMost (2 ^ 41) (stands_for depth.d self).sums }
        ensures { result ≡ stands_for depth.d self };
}

// All lines of l more; the direction's luma stands `back` entries before the centre.
pub fn take<T: Tally>(
    g: T,
    luma: &[i32],
    chroma: &[i32],
    l: Lines,
    back: usize,
    depth: DepthTerms,
) -> T
    requires { Grid l back luma.now chroma.now × NineMost (2 ^ 40) (T.stands_for depth.d g).sums }
    ensures { TookLines depth.d luma.now chroma.now back l (T.stands_for depth.d g) (T.stands_for depth.d result) }
{
    let mut t = g;
    for j in 0..l.lines {
        let at = l.at + j * l.apart;
        let line = Line {
            luma,
            chroma,
            own: at - back,
            at,
            places: l.places,
            step: l.step,
        };
        t = t.line(line, depth);
    }
    t
}
