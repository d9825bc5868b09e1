// Lines of places, tested and added place by place (document 01, Colour parameters).
use crate::lines::{Line, Tally};
use colour_samples::sample::DepthTerms;
use colour_samples::totals::Totals;

impl Tally for Totals {
    ghost stands_for = { λ D g. g };

    fn line(self, l: Line<'_>, depth: DepthTerms) -> Totals {
        let mut t = self;
        for i in 0..l.places {
            t = t.add(l.sample(i), depth);
        }
        t
    }

    fn totals(self, depth: DepthTerms) -> Totals {
        self
    }
}
