// "Mode 5 derives parameters from two windows" (document 02, request (v)): modes 0 to 4 are the first library's.
#[derive(Clone, Copy)]
pub struct ColourMode;

impl ColourMode {
    pub const NUMBER: u16 = 5;
}
