// A block's job: where it stands, and its row of words.
use crate::Spot;
use crate::candidate::Candidate;
use block_spec::spec::IntraRefSpec;
use greymap::Greymap;

// Half of the depth's values: what a block without neighbours starts from.
fn base(d: u16) -> u16 {
    match d {
        8 => 128,
        10 => 512,
        _ => 2048,
    }
}

// How many samples of the block above and to the right are there when a decoder comes to the block row by row.
fn top_right(g: Greymap, at: Spot) -> u16 {
    if at.row > 0 && u16::from(at.column) + 1 < u16::from(g.across) {
        8
    } else {
        0
    }
}

// Where a block stands, with the neighbours that a decoder has: none below.
pub fn spec_of(g: Greymap, at: Spot) -> IntraRefSpec {
    IntraRefSpec {
        x: at.x(),
        y: at.y(),
        b: 8,
        d: g.d,
        have_above: at.row > 0,
        have_left: at.column > 0,
        top_right: top_right(g, at),
        bottom_left: 0,
        available_above: 8,
        available_left: 8,
        base: base(g.d),
    }
}

// Flag bits (document 01): 0 above, 1 left, 2 luma, 3 edge filter. All edges are filtered.
pub fn flags_of(at: Spot, is_luma: bool) -> u16 {
    u16::from(at.row > 0) + 2 * u16::from(at.column > 0) + 4 * u16::from(is_luma) + 8
}

// The row's sixteen words (document 01), of which `start` is where its differences start, by sixteens.
pub fn words(s: IntraRefSpec, flags: u16, k: Candidate, start: u16) -> [u16; 16] {
    [
        s.x,
        s.y,
        s.b,
        s.d,
        k.mode,
        k.direction,
        k.delta,
        flags,
        s.top_right,
        s.bottom_left,
        s.available_above,
        s.available_left,
        s.base,
        0,
        0,
        start,
    ]
}

// Where the differences of a job start, by sixteens: those of the jobs stand in the plan's order, four sixteens a block.
pub fn start_of(job: u16) -> u16 {
    job % 16384 * 4
}

// The row of a greymap's block, which is luma, by the number of the predictor that was taken.
pub fn row_of(g: Greymap, at: Spot, taken: u8) -> [u16; 16] {
    words(
        spec_of(g, at),
        flags_of(at, true),
        Candidate::of(taken),
        start_of(at.index(g.across)),
    )
}
