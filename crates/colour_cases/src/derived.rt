// A case of `derive_params` (document 01, Colour parameters): its lists as long as the case says, its answer's number, and what the list of parameters
// holds afterwards.
use crate::window;
use numbers::answer;
use series::room;
use text::line;
use text::line::Line;

// The text after a case that agrees.
fn past_case(line: Line<'_>) -> Option<&[u8]> {
    let rows = line.size(10);
    let columns = line.size(11);
    let mut luma = window::ROOM;
    let mut chroma = window::ROOM;
    let mut params = [0; room::EDGE];
    let params = params.get_mut(..line.size(8))?;
    let rest = window::fill(line.past(12), rows, columns, &mut luma)?;
    let rest = window::fill(rest, rows, columns, &mut chroma)?;
    let answer = colour_params::derive_into(
        series::first(luma.as_flattened(), line.size(6)),
        series::first(chroma.as_flattened(), line.size(7)),
        window::window_of(line),
        line.number(1),
        line.number(0),
        params,
    );
    if answer::number(answer) != line.number(9) {
        return None;
    }
    series::same(rest, params, u32::cast_signed)
}

// Whether a case agrees, and nothing stands after it.
pub fn agrees(line: Line<'_>) -> bool {
    past_case(line).is_some_and(line::ends)
}
