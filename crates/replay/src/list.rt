// A file of the list: each line that is no comment is a case.
use colour_cases::{derived, predicted};
use luma_cases::{predictors, refs};
use text::line::Line;

#[derive(Clone, Copy, Default)]
pub struct Tally {
    pub cases: u64,
    pub wrong: u64,
}

impl Tally {
    // One case more.
    fn count(&mut self, agrees: bool) {
        self.cases = self.cases.saturating_add(1);
        if !agrees {
            self.wrong = self.wrong.saturating_add(1);
        }
    }
}

// Whether a case agrees, whose letter stands before it.
fn agrees(line: Line<'_>, letter: u8) -> bool {
    match letter {
        b'R' => refs::agrees(line),
        b'C' => derived::agrees(line),
        b'B' => predicted::agrees(line),
        b'J' => run_cases::agrees(line),
        _ => predictors::agrees(line, letter),
    }
}

// The cases of a file, added to a tally.
pub fn replay(s: &[u8], tally: &mut Tally) {
    let mut rest = s;
    while let Some((letter, line)) = rest.split_first() {
        if *letter != b'#' {
            tally.count(agrees(Line(line), *letter));
        }
        rest = text::next_line(rest);
    }
}
