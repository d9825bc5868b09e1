// A case of `build_refs`: its edges and its corner are held against what the Rust gave.
use block_spec::spec::IntraRefSpec;
use series::{kind, room};
use text::line;
use text::line::Line;

// The eleven numbers of a block and its neighbours, in the list's order, after the plane's two.
fn spec_of(line: Line<'_>) -> IntraRefSpec {
    IntraRefSpec {
        x: line.word(2),
        y: line.word(3),
        b: line.word(4),
        d: line.word(5),
        have_above: line.flag(6),
        have_left: line.flag(7),
        top_right: line.word(8),
        bottom_left: line.word(9),
        available_above: line.word(10),
        available_left: line.word(11),
        base: line.word(12),
    }
}

// The text after a case that agrees: the call is done, and its edges and its corner are those that stand after the plane.
fn past_case(line: Line<'_>) -> Option<&[u8]> {
    let mut room = [0.0; room::PLANE];
    let plane = room.get_mut(..room::area(line.word(0), line.word(1)))?;
    let rest = series::fill(line.past(13), plane, kind::float_of);
    let mut above = [0; room::EDGE];
    let mut left = [0; room::EDGE];
    let mut corner = [0; 1];
    let answer = edges::build_refs(
        plane,
        line.size(0),
        line.size(1),
        spec_of(line),
        &mut above,
        &mut left,
        &mut corner,
    );
    if answer.is_err() {
        return None;
    }
    let rest = series::same(rest, &above, u32::cast_signed)?;
    let rest = series::same(rest, &left, u32::cast_signed)?;
    series::same(rest, &corner, u32::cast_signed)
}

// Whether a case agrees, and nothing stands after it.
pub fn agrees(line: Line<'_>) -> bool {
    past_case(line).is_some_and(line::ends)
}
