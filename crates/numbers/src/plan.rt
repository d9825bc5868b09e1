// "A plan has 0 to 1,024 jobs." (document 01, Ranges and numbers that name things)
#[derive(Clone, Copy)]
pub struct Plan;

impl Plan {
    pub const MOST: usize = 1024;
}
