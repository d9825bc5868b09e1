// Where a block stands in its reference window, which of its neighbours are there, and its direction and depth (document 01, Colour parameters).
ghost use Rattle.std.specs.Prelude.{◌≡◌};
ghost use Rattle.numbers.specs.Colour.{the_colour};

use numbers::colour::ColourDirection;

// The sizes of its window, the block's own, and the rest of its call.
#[derive(Clone, Copy)]
pub struct Block {
    pub ref_width: usize,
    pub ref_height: usize,
    pub above_lines: usize,
    pub left_lines: usize,
    pub width: usize,
    pub height: usize,
    pub have_top: bool,
    pub have_left: bool,
    pub direction: u32,
    pub d: u32,
}

impl Block {
    // "width or height not in 1..128"
    pub const LARGEST_SIDE: usize = 128;

    // Its direction by its name.
    pub fn colour(self) -> ColourDirection
        ensures { result ≡ the_colour self.direction }
    {
        ColourDirection::named(self.direction)
    }
}
