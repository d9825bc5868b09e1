// A colour still's blocks of 8 x 8, plane by plane (luma, Cb, Cr) and each plane's row by row: the planes themselves, the row of each block's job in a
// tower's plan, and a second order of the jobs.
#![tactic(auto)]

pub mod plane;
pub mod row;
pub mod waves;
mod words;

ghost use Rattle.std.specs.Prelude.{◌≤◌};

use greymap::Greymap;
use picture_blocks::Spot;
use plane::Plane;

// A block of one of the planes.
#[derive(Clone, Copy, Debug, PartialEq, Eq)]
pub struct PlaneBlock {
    pub plane: Plane,
    pub at: Spot,
}

impl PlaneBlock {
    // The index of its job.
    pub fn job(self, g: Greymap) -> u16 {
        job_of(g, self.plane, self.at.index(g.across))
    }
}

// How many jobs are before a plane's.
fn before(g: Greymap, plane: Plane) -> u32
    ensures { result ≤ 130050 }
{
    let n = u32::from(greymap::product(g.across, g.down));
    match plane {
        Plane::Luma => 0,
        Plane::Cb => n,
        Plane::Cr => 2 * n,
    }
}

// The index of the job of a plane's block, by the block's index.
pub fn job_of(g: Greymap, plane: Plane, block: u16) -> u16 {
    ((before(g, plane) + u32::from(block)) % 65536) as u16
}

// How many jobs there are.
pub fn jobs(g: Greymap) -> usize
    ensures { result ≤ 195075 }
{
    3 * g.jobs()
}
