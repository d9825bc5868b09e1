// What a direction is set to, and what follows from it: the steps along its edges, their filter's strength and limit (document 01,
// Directions).
#![tactic(auto)]

pub mod steps;

ghost use Rattle.std.specs.Prelude.{◌≡◌, ◌≤◌};
ghost use Rattle.setting.specs.Setting.{distance_of, strength_above, strength_left, limit_above, limit_left};

use row_words::flag::Flags;

// max_width and max_height are in samples: a word 0, which stands for B, is B here.
#[derive(Clone, Copy)]
pub struct Setting {
    pub angle: usize,
    pub flags: Flags,
    pub max_width: u16,
    pub max_height: u16,
}

// "distance d of the angle from its edge's own axis (90 for above, 180 for left)"
fn distance(angle: usize, axis: usize) -> usize
    ensures { result ≡ distance_of angle axis }
{
    if angle < axis {
        axis - angle
    } else {
        angle - axis
    }
}

impl Setting {
    // The strength of the edge above, along a block whose width and height are wh together.
    pub fn strength_above(self, wh: usize) -> usize
        ensures { result ≡ strength_above self wh }
    {
        let f = self.flags;
        strength::filter_strength(
            f.edge_filter & f.above,
            f.smooth_neighbour,
            wh,
            distance(self.angle, 90),
        )
    }

    // The strength of the left edge.
    pub fn strength_left(self, wh: usize) -> usize
        ensures { result ≡ strength_left self wh }
    {
        let f = self.flags;
        strength::filter_strength(
            f.edge_filter & f.left,
            f.smooth_neighbour,
            wh,
            distance(self.angle, 180),
        )
    }

    // Where the filter of the edge above stops, which has n entries along a block of w columns.
    pub fn limit_above(self, n: usize, w: usize) -> usize
        requires { (n ≤ 128) × (w ≤ n) }
        ensures { result ≡ limit_above self n w }
    {
        n + 1 + self.max_width as usize - w
    }

    // Where the filter of the left edge stops, which has n entries along a block of h rows.
    pub fn limit_left(self, n: usize, h: usize) -> usize
        requires { (n ≤ 128) × (h ≤ n) }
        ensures { result ≡ limit_left self n h }
    {
        n + 1 + self.max_height as usize - h
    }
}
