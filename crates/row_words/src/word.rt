// "A job is a row of sixteen 16-bit words" (document 01, Ranges and numbers that name things)
ghost use Rattle.std.specs.Prelude.{◌≡◌};
ghost use Rattle.row_words.specs.Word.{word_place};

#[derive(Clone, Copy, Debug, PartialEq, Eq)]
pub enum Word {
    X,
    Y,
    Side,
    Bits,
    ModeWord,
    DirectionWord,
    DeltaWord,
    FlagWord,
    TopRight,
    BottomLeft,
    AvailableAbove,
    AvailableLeft,
    Base,
    MaxWidth,
    MaxHeight,
    Differences,
}

impl Word {
    // How many words a row has.
    pub const COUNT: usize = 16;

    // The word's place in a row.
    pub fn place(self) -> usize
        ensures { result ≡ word_place self }
    {
        match self {
            Word::X => 0,
            Word::Y => 1,
            Word::Side => 2,
            Word::Bits => 3,
            Word::ModeWord => 4,
            Word::DirectionWord => 5,
            Word::DeltaWord => 6,
            Word::FlagWord => 7,
            Word::TopRight => 8,
            Word::BottomLeft => 9,
            Word::AvailableAbove => 10,
            Word::AvailableLeft => 11,
            Word::Base => 12,
            Word::MaxWidth => 13,
            Word::MaxHeight => 14,
            Word::Differences => 15,
        }
    }
}
