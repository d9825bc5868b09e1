// The rules in the order of checking, by the segments that `build_refs` and a job share (document 01, Refusal numbers).
ghost use Rattle.std.specs.Prelude.{◌≡◌, true, pos};
ghost use Rattle.numbers.specs.Depth.{is_depth, most};
ghost use Rattle.refusals.specs.Ladder.{ladder};
ghost use Rattle.block_spec.specs.Rules.{size_rules, place_rules};

use crate::rules;
use crate::spec::IntraRefSpec;
use numbers::answer::{Answer, Refusal};
use numbers::depth::Depth;
use numbers::size::Size;

// M of the depth whose D is d.
pub fn max_of(d: u16) -> i32
    requires { is_depth d ≡ true }
    ensures { result ≡ pos (most d) }
{
    Depth::try_from(d).unwrap().max()
}

// 1 and 2.
pub fn size_answer(s: IntraRefSpec) -> Answer
    ensures { result ≡ ladder (size_rules s) }
{
    Size::try_from(s.b)?;
    Depth::try_from(s.d)?;
    Ok(())
}

// 4, 5 and 6, in a plane of w by h samples.
pub fn place_answer(w: usize, h: usize, s: IntraRefSpec) -> Answer
    requires { is_depth s.d ≡ true }
    ensures { result ≡ ladder (place_rules w h s) }
{
    if !rules::is_inside(w, h, s) {
        return Err(Refusal::OutsidePlane);
    }
    if !rules::has_neighbours(w, h, s) {
        return Err(Refusal::NoNeighbour);
    }
    if !rules::is_base(s, max_of(s.d)) {
        return Err(Refusal::BadBase);
    }
    Ok(())
}
