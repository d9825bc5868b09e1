// A picture's blocks of 8 x 8, row by row: where a block is, its samples, how far a prediction is off them, the predictors that are tried, the row of
// a block's job, and orders of the jobs.
#![tactic(auto)]

pub mod block;
pub mod candidate;
pub mod distance;
pub mod order;
pub mod row;

// A block by its column and its row of blocks.
#[derive(Clone, Copy, Debug, PartialEq, Eq)]
pub struct Spot {
    pub column: u8,
    pub row: u8,
}

impl Spot {
    // The block of an index, with so many blocks across; where there are none, the first.
    pub fn of(index: u16, across: u8) -> Spot {
        if across == 0 {
            return Spot { column: 0, row: 0 };
        }
        let across = u16::from(across);
        Spot {
            column: (index % across) as u8,
            row: (index / across % 256) as u8,
        }
    }

    pub fn index(self, across: u8) -> u16 {
        greymap::product(across, self.row) + u16::from(self.column)
    }

    // Where its first sample is.
    pub fn x(self) -> u16 {
        8 * u16::from(self.column)
    }

    pub fn y(self) -> u16 {
        8 * u16::from(self.row)
    }
}

// What a list has for the block or the job of an index, if there is room.
pub fn put<T: Copy>(list: &mut [T], index: u16, entry: T) {
    if let Some(place) = list.get_mut(usize::from(index)) {
        *place = entry;
    }
}

// A picture of 64 x 64 samples before a run. -1 is no sample: a job that reads what no job wrote before it is refused.
pub const UNWRITTEN: [f32; 4096] = [-1.0; 4096];
