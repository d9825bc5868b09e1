// What the places so far have: the digits of their values, and their sums.
ghost use Rattle.std.specs.Prelude.{◌≡◌, ◌^◌};
ghost use Rattle.colour_samples.specs.Nine.{NineMost};
ghost use Rattle.colour_samples.specs.Took.{empty, TookOne};

use crate::nine::Nine;
use crate::sample;
use crate::sample::{DepthTerms, Sample, Terms};
use crate::seen::Seen;

#[derive(Clone, Copy, Default)]
pub struct Totals {
    pub seen: Seen,
    pub sums: Nine,
}

impl Totals {
    // No place yet.
    pub fn new() -> Totals
        ensures { result ≡ empty }
    {
        Totals {
            seen: Seen::new(),
            sums: Nine::new(),
        }
    }

    // One sample more.
    pub fn add(self, s: Sample, depth: DepthTerms) -> Totals
        requires { NineMost (2 ^ 62) self.sums }
        ensures { TookOne depth.d s.own s.centre s.chroma self result }
    {
        let seen = self.seen;
        let sums = self.sums;
        Totals {
            seen: seen.with(s),
            sums: sums.add(Terms::of(s, depth), sample::low(s.chroma)),
        }
    }
}
