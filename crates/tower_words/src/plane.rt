// "one luma and two chroma planes" (document 02, request (v)): 0 is luma, 1 and 2 are chroma.
#[derive(Clone, Copy)]
pub struct PlaneNumber;

impl PlaneNumber {
    pub const LUMA: u16 = 0;

    pub const LAST: u16 = 2;
}
