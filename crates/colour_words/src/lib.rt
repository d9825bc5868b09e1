// The words of a colour job (document 02, request (v)): "of words 0 to 15 looks only at x, y, D and mode". Its windows and its block follow from them.
#![tactic(auto)]

ghost use Rattle.std.specs.Prelude.{◌≡◌};
ghost use Rattle.colour_words.specs.Colour.{colour_window, colour_block};

use colour_rules::block::Block;
use colour_sums::window::Window;

#[derive(Clone, Copy)]
pub struct ColourWords {
    pub x: u16,
    pub y: u16,
    pub d: u16,
    pub direction: u16,
    pub above_lines: u16,
    pub left_lines: u16,
    pub ref_width: u16,
    pub ref_height: u16,
    pub width: u16,
    pub height: u16,
    pub luma_x: u16,
    pub luma_y: u16,
    pub have_top: bool,
    pub have_left: bool,
}

impl ColourWords {
    // The sizes of both windows.
    pub fn window(self) -> Window
        ensures { result ≡ colour_window self }
    {
        Window {
            ref_width: self.ref_width as usize,
            ref_height: self.ref_height as usize,
            above_lines: self.above_lines as usize,
            left_lines: self.left_lines as usize,
        }
    }

    // The block in them.
    pub fn block(self) -> Block
        ensures { result ≡ colour_block self }
    {
        Block {
            ref_width: self.ref_width as usize,
            ref_height: self.ref_height as usize,
            above_lines: self.above_lines as usize,
            left_lines: self.left_lines as usize,
            width: self.width as usize,
            height: self.height as usize,
            have_top: self.have_top,
            have_left: self.have_left,
            direction: self.direction as u32,
            d: self.d as u32,
        }
    }
}
