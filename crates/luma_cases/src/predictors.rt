// A case of a direct predictor call: its lists as long as the case says, its answer's number, and what the output holds afterwards.
use numbers::answer;
use numbers::answer::{Answer, Refusal};
use series::{kind, room};
use text::line;
use text::line::Line;

// How long a case's lists are, its answer's number, and the text from its lists on.
#[derive(Clone, Copy)]
struct Case<'a> {
    above: usize,
    left: usize,
    out: usize,
    due: u32,
    lists: &'a [u8],
}

// A direction's line tells all of it.
fn directed(line: Line<'_>) -> Case<'_> {
    Case {
        above: line.size(8),
        left: line.size(9),
        out: line.size(10),
        due: line.number(11),
        lists: line.past(12),
    }
}

// A plain mode's has b, d and the corner: its lists are as long as they must be, and it is done.
fn plain(line: Line<'_>) -> Case<'_> {
    let b = line.word(0);
    let edge = 2 * usize::from(b);
    Case {
        above: edge,
        left: edge,
        out: room::area(b, b),
        due: answer::DONE,
        lists: line.past(3),
    }
}

// The call that a letter names.
fn call(line: Line<'_>, letter: u8, above: &[i32], left: &[i32], out: &mut [f32]) -> Answer {
    let b = line.word(0);
    let d = line.word(1);
    let corner = line.signed(2);
    match letter {
        b'D' => directional::directional(
            b,
            d,
            line.word(2),
            line.word(3),
            line.word(4),
            line.word(5),
            line.word(6),
            above,
            left,
            line.signed(7),
            out,
        ),
        b'P' => paeth::paeth(b, d, above, left, corner, out),
        b'S' => smooth::smooth(b, d, above, left, corner, out),
        b'V' => smooth::smooth_v(b, d, above, left, corner, out),
        b'H' => smooth::smooth_h(b, d, above, left, corner, out),
        _ => Err(Refusal::BadMode),
    }
}

// The text after a case that agrees, whose letter stands before it.
fn past_case(line: Line<'_>, letter: u8) -> Option<&[u8]> {
    let case = if letter == b'D' {
        directed(line)
    } else {
        plain(line)
    };
    let mut above = [0; room::EDGE];
    let mut left = [0; room::EDGE];
    let mut out = [0.0; room::BLOCK];
    let above = above.get_mut(..case.above)?;
    let left = left.get_mut(..case.left)?;
    let out = out.get_mut(..case.out)?;
    let rest = series::fill(case.lists, above, u32::cast_signed);
    let rest = series::fill(rest, left, u32::cast_signed);
    if answer::number(call(line, letter, above, left, out)) != case.due {
        return None;
    }
    series::same(rest, out, kind::sample)
}

// Whether a case agrees, whose letter stands before it, and nothing stands after it.
pub fn agrees(line: Line<'_>, letter: u8) -> bool {
    past_case(line, letter).is_some_and(line::ends)
}
