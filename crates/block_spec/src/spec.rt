// Where a block stands, which of its neighbours are there, and how many of their samples: `IntraRefSpec` of intrapred.rs, with a job's words.
#[derive(Clone, Copy)]
pub struct IntraRefSpec {
    pub x: u16,
    pub y: u16,
    pub b: u16,
    pub d: u16,
    pub have_above: bool,
    pub have_left: bool,
    pub top_right: u16,
    pub bottom_left: u16,
    pub available_above: u16,
    pub available_left: u16,
    pub base: u16,
}
