// A reference window: how many of its places count, and the nine sums over them (document 01, Colour parameters).
ghost use Rattle.std.specs.Prelude.{◌≡◌, cond, ◌≤◌};
ghost use Rattle.numbers.specs.Depth.{most};
ghost use Rattle.colour_terms.specs.Terms.{entry};
ghost use Rattle.colour_terms.specs.Reference.{most_lines};
ghost use Rattle.colour_samples.specs.Took.{empty};
ghost use Rattle.colour_samples.specs.Way.{all_in};
ghost use Rattle.colour_sums.specs.Sum.{Laid, count_of, gathered};

use crate::places;
use colour_lines::lines;
use colour_lines::lines::Tally;
use colour_lines::long::LongTotals;
use colour_samples::nine::Nine;
use colour_samples::sample::DepthTerms;
use colour_samples::totals::Totals;
use numbers::colour::ColourDirection;

// The sizes of a reference window. The rows of its lists lie `Reference::STRIDE` entries apart.
#[derive(Clone, Copy)]
pub struct Window {
    pub ref_width: usize,
    pub ref_height: usize,
    pub above_lines: usize,
    pub left_lines: usize,
}

impl Window {
    // Fewer places or columns than these are too few for the fast way.
    const FEW: usize = 4;
}

// How many places count.
pub fn count_of(w: Window) -> usize
    requires { (w.ref_width ≤ most_lines) × (w.ref_height ≤ most_lines) }
    ensures { result ≡ count_of w }
{
    let above = places::rows_above(w);
    above * w.ref_width.saturating_sub(2)
        + (w.ref_height.saturating_sub(2) - above) * places::few(w)
}

// What totals give: their sums, or none where something that was seen is not in range.
fn gathered_of(g: Totals, depth: DepthTerms) -> Option<Nine>
    ensures { result ≡ cond (all_in (most depth.d) g.seen) (Some g.sums) None }
{
    let seen = g.seen;
    if seen.is_in_range(depth) {
        Some(g.sums)
    } else {
        None
    }
}

// All places, into totals t of none: those inside the above lines, and those below them, by columns or by rows.
fn gather_by<T: Tally>(
    t: T,
    luma: &[i32],
    chroma: &[i32],
    w: Window,
    columns: bool,
    direction: ColourDirection,
    depth: DepthTerms,
) -> Option<Nine>
    requires laid { Laid w luma.now chroma.now }
    requires nothing { T.stands_for depth.d t ≡ empty }
    ensures { result ≡ gathered depth.d direction (entry luma.now) (entry chroma.now) w }
{
    let back = places::behind(direction);
    let above = lines::take(t, luma, chroma, places::above_rows(w), back, depth);
    if columns {
        let all = lines::take(above, luma, chroma, places::below_columns(w), back, depth);
        gathered_of(all.totals(depth), depth)
    } else {
        let all = lines::take(above, luma, chroma, places::below_rows(w), back, depth);
        gathered_of(all.totals(depth), depth)
    }
}

// The nine sums over the places that count, or none where something that the direction's rule needs there is not in range. n, how many count, only picks
// the way: place by place, or the fast way, below the above lines by columns where these are few, so that a line is long.
pub fn gather(
    luma: &[i32],
    chroma: &[i32],
    w: Window,
    n: usize,
    direction: ColourDirection,
    depth: DepthTerms,
) -> Option<Nine>
    requires { Laid w luma.now chroma.now }
    ensures { result ≡ gathered depth.d direction (entry luma.now) (entry chroma.now) w }
{
    if n < Window::FEW {
        let t = Totals::new();
        gather_by(t, luma, chroma, w, false, direction, depth)
    } else {
        let t = LongTotals::new();
        let columns = places::few(w) < Window::FEW;
        gather_by(t, luma, chroma, w, columns, direction, depth)
    }
}
