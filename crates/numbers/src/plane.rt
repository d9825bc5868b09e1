// "A plane is W by H samples of f32, W and H from 4 to 4,096." (document 01, Ranges and numbers that name things)
#[derive(Clone, Copy)]
pub struct Plane;

impl Plane {
    pub const LEAST: usize = 4;

    pub const MOST: usize = 4096;
}
