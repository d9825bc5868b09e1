// What `build_refs` answers: its rules in the order of checking (document 01, Refusal numbers).
ghost use Rattle.std.specs.Prelude.{◌≡◌};
ghost use Rattle.edges.specs.Rules.{outputs_long, refs_answer};

use block_spec::spec::IntraRefSpec;
use block_spec::{answer, rules};
use neighbours::reads;
use numbers::answer::{Answer, Refusal};
use numbers::size::Size;

// How many entries the outputs of a call have.
#[derive(Clone, Copy)]
pub struct Lengths {
    pub above: usize,
    pub left: usize,
    pub corner: usize,
}

// 9: the outputs.
fn outputs_long(n: Lengths) -> bool
    ensures { result ≡ outputs_long n.above n.left n.corner }
{
    if n.above < Size::REF_CAP {
        return false;
    }
    if n.left < Size::REF_CAP {
        return false;
    }
    1 <= n.corner
}

// What `build_refs` answers, whose outputs have these lengths.
pub fn refused(plane: &[f32], width: usize, height: usize, s: IntraRefSpec, n: Lengths) -> Answer
    ensures { result ≡ refs_answer plane.now width height s n.above n.left n.corner }
{
    if !rules::is_plane(width, height, plane.len()) {
        return Err(Refusal::BadPlane);
    }
    answer::size_answer(s)?;
    answer::place_answer(width, height, s)?;
    if !outputs_long(n) {
        return Err(Refusal::ShortList);
    }
    if !reads::all_read(plane, width, s, answer::max_of(s.d)) {
        return Err(Refusal::BadSample);
    }
    Ok(())
}
