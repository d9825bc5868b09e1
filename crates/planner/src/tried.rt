// A block on which predictors are tried: the one that comes nearest is the one with the smallest sum of distances from the block's samples.
use greymap::Greymap;
use numbers::answer::Answer;
use picture_blocks::candidate::{Candidate, Choice};
use picture_blocks::{Spot, block, candidate, distance, row};

// A block's samples as numbers, its depth and its flags, and its edges.
#[derive(Drop)]
pub struct Tried {
    due: [u16; 64],
    d: u16,
    flags: u16,
    above: [i32; 128],
    left: [i32; 128],
    corner: i32,
}

impl Tried {
    // The block of a picture. Where its edges are refused, the run refuses its job.
    pub fn on(original: &[f32], g: Greymap, at: Spot) -> Tried {
        let mut above = [0; 128];
        let mut left = [0; 128];
        let mut corner = [0; 1];
        let _ = edges::build_refs(
            original,
            g.width(),
            g.height(),
            row::spec_of(g, at),
            &mut above,
            &mut left,
            &mut corner,
        );
        Tried {
            due: block::block_of(original, g, at),
            d: g.d,
            flags: row::flags_of(at, true),
            above,
            left,
            corner: corner[0],
        }
    }

    // What a predictor, by its number, makes of the edges.
    fn predict(&self, number: u8, out: &mut [f32; 64]) -> Answer {
        let k = Candidate::of(number);
        let (above, left, corner) = (&self.above, &self.left, self.corner);
        match k.mode {
            0 => paeth::paeth(8, self.d, above, left, corner, out),
            1 => smooth::smooth(8, self.d, above, left, corner, out),
            2 => smooth::smooth_v(8, self.d, above, left, corner, out),
            3 => smooth::smooth_h(8, self.d, above, left, corner, out),
            _ => directional::directional(
                8,
                self.d,
                k.direction,
                k.delta,
                self.flags,
                0,
                0,
                above,
                left,
                corner,
                out,
            ),
        }
    }

    // How far off the block a predictor is.
    fn error_of(&self, number: u8) -> Option<u32> {
        let mut out = [0.0; 64];
        self.predict(number, &mut out).ok()?;
        Some(distance::error_of(&out, &self.due))
    }

    // The predictor that comes nearest, of all candidates.
    pub fn nearest(&self) -> Choice {
        candidate::nearest(0..Candidate::COUNT, |number| self.error_of(number))
    }

    // The block's differences from a predictor.
    pub fn differences(&self, number: u8) -> [i16; 64] {
        let mut out = [0.0; 64];
        let _ = self.predict(number, &mut out);
        distance::differences_of(&out, &self.due)
    }
}
