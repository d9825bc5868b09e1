// The tests of a tower's row (document 02, request (v)): 3, what it has in every mode; 4 and 12 of mode 5.
ghost use Rattle.std.specs.Prelude.{◌≡◌, length};
ghost use Rattle.tower_job.specs.Tests.{is_spare, is_tower, is_span, is_in_planes, is_colour_lines};

use crate::row;
use colour_rules::place;
use colour_terms::reference;
use colour_words::ColourWords;
use tower_words::plane::PlaneNumber;
use tower_words::word::TowerWord;

// The four spare words are zero.
fn is_spare(row: &[u16]) -> bool
    requires { length row.now ≡ 32 }
    ensures { result ≡ is_spare row.now }
{
    let a = row::word(row, TowerWord::SpareA) == 0;
    let b = row::word(row, TowerWord::SpareB) == 0;
    let c = row::word(row, TowerWord::SpareC) == 0;
    let d = row::word(row, TowerWord::SpareD) == 0;
    a & b & c & d
}

// 3, in every mode.
pub fn is_tower(row: &[u16]) -> bool
    requires { length row.now ≡ 32 }
    ensures { result ≡ is_tower row.now }
{
    let plane = row::word(row, TowerWord::PlaneWord);
    let known = plane <= PlaneNumber::LAST;
    let on_luma = row::is_colour(row) & (plane == PlaneNumber::LUMA);
    let top = row::word(row, TowerWord::HaveTop) <= 1;
    let left = row::word(row, TowerWord::HaveLeft) <= 1;
    let spare = is_spare(row);
    known & !on_luma & top & left & spare
}

// A window of n lines that starts `before` lines before `start` lies in a side of `end`.
fn is_span(start: u16, before: u16, n: u16, end: usize) -> bool
    ensures { result ≡ is_span start before n end }
{
    if start < before {
        return false;
    }
    let from = start as usize - before as usize;
    from + n as usize <= end
}

// 4: both windows and the block.
pub fn is_in_planes(width: usize, height: usize, c: ColourWords) -> bool
    ensures { result ≡ is_in_planes width height c }
{
    let luma_across = is_span(c.luma_x, 0, c.ref_width, width);
    let luma_down = is_span(c.luma_y, 0, c.ref_height, height);
    let chroma_across = is_span(c.x, c.left_lines, c.ref_width, width);
    let chroma_down = is_span(c.y, c.above_lines, c.ref_height, height);
    let across = is_span(c.x, 0, c.width, width);
    let down = is_span(c.y, 0, c.height, height);
    luma_across & luma_down & chroma_across & chroma_down & across & down
}

// 12: the lines and the block in its window.
pub fn is_colour_lines(c: ColourWords) -> bool
    ensures { result ≡ is_colour_lines c }
{
    let b = c.block();
    if !reference::is_lines(b.above_lines, b.left_lines) {
        return false;
    }
    let placed = place::is_placed(b);
    let there = place::has_neighbours(b);
    let across = b.left_lines + b.width <= b.ref_width;
    placed & there & across
}
