// A colour still's planes, of at most 64 x 64 samples each: those of an original, or those that its jobs rebuild.
ghost use Rattle.std.specs.Prelude.{◌≤◌, length};

use crate::PlaneBlock;
use greymap::Greymap;
use numbers::answer::{Answer, DONE};
use picture_blocks::{UNWRITTEN, block};

#[derive(Clone, Copy, Debug, PartialEq, Eq)]
pub enum Plane {
    Luma,
    Cb,
    Cr,
}

impl Plane {
    pub const ALL: [Plane; 3] = [Plane::Luma, Plane::Cb, Plane::Cr];

    pub fn number(self) -> u16 {
        self as u16
    }

    pub fn name(self) -> &'static str {
        match self {
            Plane::Luma => "luma",
            Plane::Cb => "Cb",
            Plane::Cr => "Cr",
        }
    }
}

// Each plane's samples stand in the first places of its room.
#[derive(Drop)]
pub struct Planes {
    pub g: Greymap,
    pub luma: [f32; 4096],
    pub cb: [f32; 4096],
    pub cr: [f32; 4096],
}

impl Planes {
    // Room for planes, 48 KiB of it, which functions borrow: of no blocks yet.
    pub const EMPTY: Planes = Planes {
        g: Greymap {
            across: 0,
            down: 0,
            d: 8,
        },
        luma: [0.0; 4096],
        cb: [0.0; 4096],
        cr: [0.0; 4096],
    };

    // Before a run. What this function needs to make them is off the stack when it returns.
    #[inline(never)]
    pub fn unwritten(g: Greymap) -> Planes {
        Planes {
            g,
            luma: UNWRITTEN,
            cb: UNWRITTEN,
            cr: UNWRITTEN,
        }
    }

    pub fn samples(&self, plane: Plane) -> &[f32]
        ensures { length result.now ≤ 4096 }
    {
        let room = match plane {
            Plane::Luma => &self.luma,
            Plane::Cb => &self.cb,
            Plane::Cr => &self.cr,
        };
        series::first(room, self.g.area())
    }

    pub fn block(&self, b: PlaneBlock) -> [f32; 64] {
        block::samples_of(self.samples(b.plane), self.g, b.at)
    }

    // Runs jobs in an order; where a list is too short the run itself refuses.
    pub fn run(
        &mut self,
        rows: &[u16],
        order: &[u16],
        differences: &[i16],
        answers: &mut [u16],
    ) -> Answer {
        let Planes { g, luma, cb, cr } = self;
        let n = g.area();
        tower_plan::run(
            series::first_mut(luma, n),
            series::first_mut(cb, n),
            series::first_mut(cr, n),
            g.width(),
            g.height(),
            rows,
            order,
            differences,
            answers,
        )
    }

    // Runs a job by itself, and tells whether it is done.
    pub fn run_alone(&mut self, row: &[u16; 32], differences: &[i16]) -> bool {
        let mut answers = [u16::MAX; 1];
        let answer = self.run(row, &[0], differences, &mut answers);
        answer.is_ok() && u32::from(answers[0]) == DONE
    }
}
