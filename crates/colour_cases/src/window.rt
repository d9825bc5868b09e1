// What the colour cases of the list share (document 01, Colour parameters): a window's sizes, and lists of which a line has the first columns of the
// first rows.
use colour_sums::window::Window;
use text::line::Line;

// Room for sixteen rows of a window.
pub const ROOM: [[i32; 256]; 16] = [[0; 256]; 16];

// The window's sizes stand after the depth and the direction.
pub fn window_of(line: Line<'_>) -> Window {
    Window {
        ref_width: line.size(2),
        ref_height: line.size(3),
        above_lines: line.size(4),
        left_lines: line.size(5),
    }
}

// Fills the first columns of a list's first rows, if it has so many, and hands back the text after them.
pub fn fill<'a>(
    s: &'a [u8],
    rows: usize,
    columns: usize,
    list: &mut [[i32; 256]; 16],
) -> Option<&'a [u8]> {
    let mut rest = s;
    for row in list.get_mut(..rows)?.iter_mut() {
        rest = series::fill(rest, row.get_mut(..columns)?, u32::cast_signed);
    }
    Some(rest)
}
