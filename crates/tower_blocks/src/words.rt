// The thirty-two words of a job (document 01; from word 16 on document 02, request (v)): by a plain mode with differences, or from luma without.
use crate::PlaneBlock;
use crate::plane::Plane;
use greymap::Greymap;
use picture_blocks::candidate::Candidate;
use picture_blocks::row;
use tower_words::mode::ColourMode;

// Where the block before one starts, in a column or in a row of blocks, or itself where there is none.
fn before(line: u8) -> u16 {
    8 * u16::from(line.saturating_sub(1))
}

// By mode 0 to 3. Its differences start after so many sixteens.
pub fn plain(g: Greymap, b: PlaneBlock, mode: u16, start: u16) -> [u16; 32] {
    let flags = row::flags_of(b.at, b.plane == Plane::Luma);
    let mode = Candidate {
        mode,
        direction: 0,
        delta: 0,
    };
    let mut words = [0; 32];
    words[..16].copy_from_slice(&row::words(row::spec_of(g, b.at), flags, mode, start));
    words[16] = b.plane.number();
    words
}

// From luma, by a colour direction: of the blocks above and to the left, where they are there, all eight lines count.
pub fn colour(g: Greymap, b: PlaneBlock, direction: u16) -> [u16; 32] {
    let has_above = u16::from(b.at.row > 0);
    let has_left = u16::from(b.at.column > 0);
    let mut words = [0; 32];
    words[0] = b.at.x();
    words[1] = b.at.y();
    words[3] = g.d;
    words[4] = ColourMode::NUMBER;
    words[16] = b.plane.number();
    words[17] = direction;
    words[18] = 8 * has_above;
    words[19] = 8 * has_left;
    words[20] = 8 * has_left + 8;
    words[21] = 8 * has_above + 8;
    words[22] = 8;
    words[23] = 8;
    words[24] = before(b.at.column);
    words[25] = before(b.at.row);
    words[26] = has_above;
    words[27] = has_left;
    words
}
