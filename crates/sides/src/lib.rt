// A block's two neighbours by places in the plane's list (document 01, From samples to edges). A neighbour that is there is a line of samples, along a
// row or down a column; one number stands for all the entries of one that is missing.
#![tactic(auto)]

ghost use Rattle.std.specs.Prelude.{◌≡◌, cond, ◌+◌, ◌-◌, ◌*◌, ◌≤◌, min};
ghost use Rattle.block_spec.specs.Behind.{corner_behind};
ghost use Rattle.sides.specs.Spot.{spot_of};
ghost use Rattle.sides.specs.Side.{above_side, left_side, above_spare, left_spare};

use block_spec::spec::IntraRefSpec;

// What stands behind an entry: the sample at a place of the plane's list, or a number that is no sample.
#[derive(Clone, Copy)]
pub enum Spot {
    Sample(usize),
    Number(i32),
}

// A neighbour of a block of bs by bs, above it or at its left: `first` of its first bs samples are there, and those from bs on up to `end`.
#[derive(Clone, Copy)]
pub struct Side {
    pub there: bool,
    pub start: usize,
    pub stride: usize,
    pub bs: usize,
    pub first: usize,
    pub end: usize,
}

// The number before i; 0 is before 0.
fn before(i: u16) -> usize
    ensures { result ≡ i - 1 }
{
    if i == 0 { 0 } else { i as usize - 1 }
}

// The smaller of two words.
fn least(a: u16, b: u16) -> usize
    ensures { result ≡ min a b }
{
    minmax::min(a as usize, b as usize)
}

// Where a sample stands in the list of a plane whose rows have `width` samples.
fn place(width: usize, row: usize, column: usize) -> usize
    requires { row * width + column ≤ 16777216 }
    ensures { result ≡ row * width + column }
{
    row * width + column
}

// The sample at a place, or a number.
fn spot_of(sample: bool, place: usize, number: i32) -> Spot
    ensures { result ≡ cond sample (Spot.Sample place) (Spot.Number number) }
{
    if sample {
        Spot::Sample(place)
    } else {
        Spot::Number(number)
    }
}

// The neighbour above.
pub fn above_of(width: usize, s: IntraRefSpec) -> Side
    requires { s.y * width + s.x ≤ 16777216 }
    ensures { result ≡ above_side width s }
{
    Side {
        there: s.have_above,
        start: place(width, before(s.y), s.x as usize),
        stride: 1,
        bs: s.b as usize,
        first: least(s.available_above, s.b),
        end: s.b as usize + least(s.top_right, s.b),
    }
}

// The neighbour at the left.
pub fn left_of(width: usize, s: IntraRefSpec) -> Side
    requires { s.y * width + s.x ≤ 16777216 }
    ensures { result ≡ left_side width s }
{
    Side {
        there: s.have_left,
        start: place(width, s.y as usize, before(s.x)),
        stride: width,
        bs: s.b as usize,
        first: least(s.available_left, s.b),
        end: s.b as usize + least(s.bottom_left, s.b),
    }
}

// The number behind every entry above where above is missing: the corner's, which is left's first sample, or one less than the base.
pub fn above_spare(s: IntraRefSpec, corner: i32) -> i32
    ensures { result ≡ above_spare s corner }
{
    if s.have_left {
        corner
    } else {
        s.base as i32 - 1
    }
}

// The number behind every entry at the left where left is missing: the corner's, which is above's first sample, or one more than the base.
pub fn left_spare(s: IntraRefSpec, corner: i32) -> i32
    ensures { result ≡ left_spare s corner }
{
    if s.have_above {
        corner
    } else {
        s.base as i32 + 1
    }
}

// What stands behind the corner.
pub fn corner_at(width: usize, s: IntraRefSpec) -> Spot
    requires { s.y * width + s.x ≤ 16777216 }
    ensures { result ≡ spot_of width (corner_behind s) }
{
    if s.have_above {
        let row = before(s.y);
        if s.have_left {
            return Spot::Sample(place(width, row, before(s.x)));
        }
        return Spot::Sample(place(width, row, s.x as usize));
    }
    spot_of(
        s.have_left,
        place(width, s.y as usize, before(s.x)),
        s.base as i32,
    )
}
