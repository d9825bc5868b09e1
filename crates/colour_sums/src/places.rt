// "Each reference sample that counts (index 1 to dimension - 2, and inside the above or left lines)" (document 01, Colour parameters): whole rows
// inside the above lines, then the first columns of the rows below them. Places that cannot count are not visited.
ghost use Rattle.std.specs.Prelude.{◌≡◌, ◌≤◌};
ghost use Rattle.colour_terms.specs.Reference.{most_lines};
ghost use Rattle.colour_samples.specs.Way.{behind};
ghost use Rattle.colour_sums.specs.Places.{rows_above, few};
ghost use Rattle.colour_sums.specs.AsLines.{above_rows, below_rows, below_columns};

use crate::window::Window;
use colour_lines::lines::Lines;
use colour_terms::reference::Reference;
use numbers::colour::ColourDirection;

// How many rows have all their columns inside the above lines.
pub fn rows_above(w: Window) -> usize
    ensures { result ≡ rows_above w }
{
    w.above_lines
        .saturating_sub(1)
        .min(w.ref_height.saturating_sub(2))
}

// How many columns of the other rows are inside the left lines.
pub fn few(w: Window) -> usize
    ensures { result ≡ few w }
{
    w.left_lines
        .saturating_sub(1)
        .min(w.ref_width.saturating_sub(2))
}

// How far before the centre, in entries, the direction's luma stands.
pub fn behind(direction: ColourDirection) -> usize
    ensures { result ≡ behind direction }
{
    direction.rows_up() * Reference::STRIDE + direction.columns_left()
}

// The rows inside the above lines, as lines of places.
pub fn above_rows(w: Window) -> Lines
    ensures { result ≡ above_rows w }
{
    Lines {
        at: Reference::STRIDE + 1,
        lines: rows_above(w),
        apart: Reference::STRIDE,
        places: w.ref_width.saturating_sub(2),
        step: 1,
    }
}

// The rows below them, inside the left lines.
pub fn below_rows(w: Window) -> Lines
    requires { w.ref_height ≤ most_lines }
    ensures { result ≡ below_rows w }
{
    let above = rows_above(w);
    Lines {
        at: (above + 1) * Reference::STRIDE + 1,
        lines: w.ref_height.saturating_sub(2) - above,
        apart: Reference::STRIDE,
        places: few(w),
        step: 1,
    }
}

// The same by columns.
pub fn below_columns(w: Window) -> Lines
    requires { w.ref_height ≤ most_lines }
    ensures { result ≡ below_columns w }
{
    let l = below_rows(w);
    Lines {
        at: l.at,
        lines: l.places,
        apart: l.step,
        places: l.lines,
        step: l.apart,
    }
}
