// "a luma value that the direction's rule needs at a .. predicted place is not in 0..8M+7" (document 01, refusal 13): one walk over the needed values,
// which are the block's own and, where the direction takes them and they are there, the row above or the column before.
ghost use Rattle.std.specs.Prelude.{◌≡◌, true, ◌+◌, ◌*◌, ◌≤◌, pos, length, get_or};
ghost use Rattle.numbers.specs.Depth.{is_depth, most};
ghost use Rattle.numbers.specs.Colour.{is_colour};
ghost use Rattle.signed.specs.Range.{inside};
ghost use Rattle.edge_line.specs.Every.{every};
ghost use Rattle.colour_terms.specs.Terms.{stride, entry};
ghost use Rattle.colour_rules.specs.Area.{up_of, beside_of, Area};
ghost use Rattle.colour_rules.specs.Placed.{InReference};
ghost use Rattle.colour_rules.specs.Rules.{is_luma_in_range};

use crate::block::Block;
use colour_terms::reference::Reference;
use direct_calls::range;

// Whether all entries are in 0..m. All are looked at, whatever the first are: no branch inside.
fn run_in_range(xs: &[i32], m: i32) -> bool
    ensures { result ≡ every (λ i. inside m (get_or xs.now i (pos 0))) (length xs.now) }
{
    let mut ok = true;
    for x in xs {
        ok &= range::in_range(*x, m);
    }
    ok
}

// Whether each entry of an area is in 0..m: rows of `width` entries, the first from s on.
fn area_in_range(luma: &[i32], s: usize, width: usize, height: usize, m: i32) -> bool
    requires { Area s width height (length luma.now) }
    ensures { result ≡ every (λ j. every (λ i. inside m (get_or luma.now (s + j * stride + i) (pos 0))) width) height }
{
    let mut ok = true;
    for j in 0..height {
        let from = s + j * Reference::STRIDE;
        ok &= run_in_range(&luma[from..from + width], m);
    }
    ok
}

// So many rows above the block are needed.
pub fn up_of(b: Block) -> usize
    requires { is_colour b.direction ≡ true }
    ensures { result ≡ up_of b }
{
    if b.have_top { b.colour().rows_up() } else { 0 }
}

// So many columns before it are needed.
pub fn beside_of(b: Block) -> usize
    requires { is_colour b.direction ≡ true }
    ensures { result ≡ beside_of b }
{
    if b.have_left {
        b.colour().columns_left()
    } else {
        0
    }
}

// 13: the needed values.
pub fn luma_in_range(luma: &[i32], b: Block, m: i32) -> bool
    requires { (is_depth b.d ≡ true) × (m ≡ pos (most b.d)) × InReference b (length luma.now) × (is_colour b.direction ≡ true) }
    ensures { result ≡ is_luma_in_range (entry luma.now) b }
{
    let up = up_of(b);
    let beside = beside_of(b);
    let s = (b.above_lines - up) * Reference::STRIDE + (b.left_lines - beside);
    area_in_range(luma, s, b.width + beside, b.height + up, 8 * m + 7)
}
