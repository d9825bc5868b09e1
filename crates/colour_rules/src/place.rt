// Refusal 12 (document 01, Refusal numbers), what prediction tests beside the lines: the block's place, and its neighbours.
ghost use Rattle.std.specs.Prelude.{◌≡◌, true};
ghost use Rattle.colour_terms.specs.Reference.{is_lines};
ghost use Rattle.colour_rules.specs.Rules.{is_side, is_placed, has_line, has_lines};

use crate::block::Block;
use colour_terms::reference::Reference;

// A side of the block.
fn is_side(n: usize) -> bool
    ensures { result ≡ is_side n }
{
    1 <= n && n <= Block::LARGEST_SIDE
}

// 12: the block's place.
pub fn is_placed(b: Block) -> bool
    requires { is_lines b.above_lines b.left_lines ≡ true }
    ensures { result ≡ is_placed b }
{
    is_side(b.width)
        && is_side(b.height)
        && b.left_lines + b.width <= Reference::STRIDE
        && b.above_lines + b.height <= b.ref_height
}

// Whether a neighbour that is there has a line before the block.
fn has_line(there: bool, lines: usize) -> bool
    ensures { result ≡ has_line there lines }
{
    !there || 1 <= lines
}

// 12: the neighbours.
pub fn has_neighbours(b: Block) -> bool
    ensures { result ≡ has_lines b }
{
    has_line(b.have_top, b.above_lines) && has_line(b.have_left, b.left_lines)
}
