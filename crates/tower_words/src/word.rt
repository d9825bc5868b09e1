// "The job row gains sixteen words" (document 02, request (v)): words 0 to 15 are those of `row_words`.
ghost use Rattle.std.specs.Prelude.{◌≡◌};
ghost use Rattle.tower_words.specs.Word.{tower_place};

#[derive(Clone, Copy)]
pub enum TowerWord {
    PlaneWord,
    ColourWord,
    AboveLines,
    LeftLines,
    RefWidth,
    RefHeight,
    Width,
    Height,
    LumaX,
    LumaY,
    HaveTop,
    HaveLeft,
    SpareA,
    SpareB,
    SpareC,
    SpareD,
}

impl TowerWord {
    // How many words a row has.
    pub const COUNT: usize = 32;

    // The word's place in a row.
    pub fn place(self) -> usize
        ensures { result ≡ tower_place self }
    {
        match self {
            TowerWord::PlaneWord => 16,
            TowerWord::ColourWord => 17,
            TowerWord::AboveLines => 18,
            TowerWord::LeftLines => 19,
            TowerWord::RefWidth => 20,
            TowerWord::RefHeight => 21,
            TowerWord::Width => 22,
            TowerWord::Height => 23,
            TowerWord::LumaX => 24,
            TowerWord::LumaY => 25,
            TowerWord::HaveTop => 26,
            TowerWord::HaveLeft => 27,
            TowerWord::SpareA => 28,
            TowerWord::SpareB => 29,
            TowerWord::SpareC => 30,
            TowerWord::SpareD => 31,
        }
    }
}
