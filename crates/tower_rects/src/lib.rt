// What a row of a tower's plan writes and reads (document 02, request (v)), by rectangles: "A sample is now a plane number with a place", so
// they are those of a tall picture in which the planes stand below one another.
#![tactic(auto)]

mod base;
mod colour;
pub mod read;
pub mod rects;
