// The fast way over lines of places (document 01, Colour parameters). What it takes is what the way place by place takes: its promises are the same,
// of the totals that its own stand for.
ghost use Rattle.std.specs.Prelude.{◌≡◌};
ghost use Rattle.colour_samples.specs.Way.{unseen};
ghost use Rattle.colour_lines.specs.Fast.{no_place};
ghost use Rattle.colour_lines.specs.Long.{as_totals};

use crate::fast::{LineSums, LongSums};
use crate::lines::{Line, Tally};
use colour_samples::sample;
use colour_samples::sample::{DepthTerms, Terms};
use colour_samples::seen::Seen;
use colour_samples::totals::Totals;

// What the places so far have: the digits of their values, and their sums.
#[derive(Clone, Copy, Default)]
pub struct LongTotals {
    pub seen: Seen,
    pub sums: LongSums,
}

impl LongTotals {
    // No place yet.
    pub fn new() -> LongTotals
        ensures { result ≡ record { seen = unseen; sums = no_place } }
    {
        LongTotals {
            seen: Seen::new(),
            sums: LongSums::default(),
        }
    }
}

impl Tally for LongTotals {
    ghost stands_for = { as_totals };

    fn line(self, l: Line<'_>, depth: DepthTerms) -> LongTotals {
        let mut seen = self.seen;
        let mut line = LineSums::default();
        for i in 0..l.places {
            let s = l.sample(i);
            seen = seen.with(s);
            line = line.add(Terms::of(s, depth), sample::low(s.chroma));
        }
        let sums = self.sums;
        LongTotals {
            seen,
            sums: sums.plus(line),
        }
    }

    fn totals(self, depth: DepthTerms) -> Totals {
        let seen = self.seen;
        let sums = self.sums;
        Totals {
            seen,
            sums: sums.nine(depth.middle),
        }
    }
}
