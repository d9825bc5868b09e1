// How far a rebuilt plane is off the original's, and the range of a plane's samples.
ghost use Rattle.std.specs.Prelude.{◌≤◌};

use picture_blocks::block;

// A plane has so many samples at most.
const MOST: usize = 4096;

// The largest of the samples' distances, and all of them together.
#[derive(Clone, Copy)]
pub struct PlaneError {
    pub largest: u16,
    pub sum: u32,
}

#[derive(Clone, Copy)]
pub struct Range {
    pub least: u16,
    pub most: u16,
}

// A sample as a number, and 0 where there is none.
pub fn sample_at(plane: &[f32], i: usize) -> u16 {
    plane.get(i).copied().map_or(0, block::whole)
}

pub fn error_of(original: &[f32], rebuilt: &[f32]) -> PlaneError
    ensures { result.sum ≤ 268431360 }
{
    let mut largest = 0;
    let mut sum = 0;
    for i in 0..MOST {
        let e = sample_at(original, i).abs_diff(sample_at(rebuilt, i));
        largest = largest.max(e);
        sum += u32::from(e);
    }
    PlaneError { largest, sum }
}

pub fn range_of(plane: &[f32]) -> Range {
    let mut least = 65535;
    let mut most = 0;
    for sample in plane {
        let v = block::whole(*sample);
        least = least.min(v);
        most = most.max(v);
    }
    Range { least, most }
}
