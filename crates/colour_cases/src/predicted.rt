// A case of `predict_block` (document 01, Colour parameters): its lists as long as the case says, its answer's number, and what the output holds
// afterwards.
use crate::window;
use numbers::answer;
use series::room;
use text::line;
use text::line::Line;

// The text after a case that agrees.
fn past_case(line: Line<'_>) -> Option<&[u8]> {
    let mut luma = window::ROOM;
    let mut out = [0; room::EDGE];
    let out = out.get_mut(..line.size(14))?;
    let rest = window::fill(line.past(18), line.size(16), line.size(17), &mut luma)?;
    let answer = colour_block::predict_block(
        series::first(luma.as_flattened(), line.size(13)),
        window::window_of(line),
        line.size(6),
        line.size(7),
        line.flag(8),
        line.flag(9),
        line.number(1),
        line.number(0),
        line.signed(10),
        line.signed(11),
        line.signed(12),
        out,
    );
    if answer::number(answer) != line.number(15) {
        return None;
    }
    series::same(rest, out, u32::cast_signed)
}

// Whether a case agrees, and nothing stands after it.
pub fn agrees(line: Line<'_>) -> bool {
    past_case(line).is_some_and(line::ends)
}
