// How much room a list of the cases has.

pub const EDGE: usize = 128;

pub const BLOCK: usize = 64 * 64;

pub const PLANE: usize = 8192;

// The words of a small plan, and the jobs of its order.
pub const PLAN: usize = 128;

pub const DIFFERENCES: usize = 2048;

// How many samples a plane or a block has.
pub fn area(width: u16, height: u16) -> usize {
    usize::from(width) * usize::from(height)
}
