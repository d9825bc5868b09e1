// Refusal 13 (document 01, Refusal numbers), tested once for all samples: 8M+7 and M have nothing but ones for binary digits, so all values are in
// range exactly when the digits that any of them has are.
ghost use Rattle.std.specs.Prelude.{◌≡◌};
ghost use Rattle.numbers.specs.Depth.{most};
ghost use Rattle.colour_samples.specs.Way.{unseen, seen_with, all_in, Met};

use crate::sample::{DepthTerms, Sample};
use direct_calls::range;

// The binary digits that any luma value, and any chroma value, had so far.
#[derive(Clone, Copy, Default)]
pub struct Seen {
    pub luma: i32,
    pub chroma: i32,
}

impl Seen {
    // No value yet.
    pub fn new() -> Seen
        ensures { result ≡ unseen }
    {
        Seen::default()
    }

    // The values of one sample more.
    pub fn with(self, s: Sample) -> Seen
        ensures { (result ≡ seen_with self s.own s.centre s.chroma) × Met s.own s.centre s.chroma self result }
    {
        Seen {
            luma: self.luma | s.own | s.centre,
            chroma: self.chroma | s.chroma,
        }
    }

    // Whether all values so far are in range.
    pub fn is_in_range(self, depth: DepthTerms) -> bool
        ensures { result ≡ all_in (most depth.d) self }
    {
        let a = range::in_range(self.luma, depth.top);
        let b = range::in_range(self.chroma, depth.most);
        a & b
    }
}
