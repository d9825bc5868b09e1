// A plane's samples as letters, each for two, one under the other, since it is about twice as high as it is wide.
use crate::measure;
use crate::measure::Range;
use std::fmt;

const RAMP: [char; 10] = [' ', '.', ':', '-', '=', '+', '*', '#', '%', '@'];

// The letter of a value.
fn letter(value: u16, range: Range) -> char {
    if value <= range.least {
        return RAMP[0];
    }
    if range.most <= value {
        return RAMP[9];
    }
    let above = u32::from(value - range.least);
    let span = u32::from(range.most - range.least);
    let level = (above * 9 + span / 2) / span;
    RAMP[level.min(9) as usize]
}

// A row of samples of a plane, from a place on, and the row under it: of at most 64 columns.
#[derive(Clone, Copy)]
pub struct Letters<'a> {
    pub plane: &'a [f32],
    pub from: usize,
    pub width: usize,
    pub range: Range,
}

impl fmt::Display for Letters<'_> {
    fn fmt<W: fmt::Write>(&self, f: &mut fmt::Formatter<W>) -> fmt::Result {
        for x in 0..self.width.min(64) {
            let upper = self.from.saturating_add(x);
            let lower = upper.saturating_add(self.width);
            let value = measure::sample_at(self.plane, upper).midpoint(measure::sample_at(
                self.plane, lower,
            ));
            f.write_char(letter(value, self.range))?;
        }
        Ok(())
    }
}
