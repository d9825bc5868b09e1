// The legend: a line of the page for each plain mode, and one for each direction with all its deltas, in the order of their numbers.
ghost use Rattle.std.specs.Prelude.{◌<◌};

// Each line's letter; its predictor's name, and of a direction the angles that its deltas reach.
pub const LINES: [(char, &str); 12] = [
    ('P', "Paeth"),
    ('S', "smooth"),
    ('V', "smooth_v"),
    ('H', "smooth_h"),
    ('a', "V     81 to  99 degrees"),
    ('b', "H    171 to 189 degrees"),
    ('c', "D45   36 to  54 degrees"),
    ('d', "D135 126 to 144 degrees"),
    ('e', "D113 104 to 122 degrees"),
    ('f', "D157 148 to 166 degrees"),
    ('g', "D203 194 to 212 degrees"),
    ('h', "D67   58 to  76 degrees"),
];

// The place of a candidate's line.
pub fn line_of(k: u8) -> usize
    ensures { result < 12 }
{
    let line = if k < 4 { k } else { (k - 4) / 7 + 4 };
    usize::from(line.min(11))
}

// A candidate's letter.
pub fn letter(k: u8) -> char {
    LINES[line_of(k)].0
}
