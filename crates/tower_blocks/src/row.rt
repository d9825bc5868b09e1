// The rows of a plan: what each block's job is, by a number: 0 to 3 by that mode, and from 4 on from luma by one of the colour directions.
use crate::{PlaneBlock, words};
use greymap::Greymap;
use picture_blocks::row;
use std::ops::Range;
use tower_words::mode::ColourMode;

// The numbers of the jobs by a plain mode.
pub const PLAIN: Range<u8> = 0..FIRST_COLOUR;

// The numbers of the jobs from luma.
pub const COLOUR: Range<u8> = FIRST_COLOUR..7;

pub const FIRST_COLOUR: u8 = 4;

// The row of a block's job, by its number. Its differences, if it has any, start after so many sixteens.
pub fn row_of(g: Greymap, b: PlaneBlock, number: u8, start: u16) -> [u16; 32] {
    if number < FIRST_COLOUR {
        words::plain(g, b, u16::from(number), start)
    } else {
        words::colour(g, b, u16::from(number - FIRST_COLOUR))
    }
}

// The same in a plan, where the jobs' differences stand in their order.
pub fn planned(g: Greymap, b: PlaneBlock, number: u8) -> [u16; 32] {
    row_of(g, b, number, row::start_of(b.job(g)))
}

// Puts the row of a block's job at its place in a plan, if there is room.
pub fn put_row(g: Greymap, b: PlaneBlock, number: u8, rows: &mut [[u16; 32]]) {
    picture_blocks::put(rows, b.job(g), planned(g, b, number));
}

// The number of a job of a plan, and 0 where there is none.
pub fn number_of(rows: &[[u16; 32]], job: u16) -> u8 {
    let Some(row) = rows.get(usize::from(job)) else {
        return 0;
    };
    if row[4] == ColourMode::NUMBER {
        (row[17] % 3) as u8 + FIRST_COLOUR
    } else {
        (row[4] % 4) as u8
    }
}
