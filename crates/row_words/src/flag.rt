// "Flag bits: 0 above is there, 1 left is there, 2 luma, 3 edge filter, 4 smooth neighbour; others zero." (document 01, Ranges and numbers
// that name things)
ghost use Rattle.std.specs.Prelude.{◌≡◌};
ghost use Rattle.row_words.specs.Flag.{flag_bit, is_set, no_stray, flags_of};

#[derive(Clone, Copy, Debug, PartialEq, Eq)]
pub enum Flag {
    Above,
    Left,
    Luma,
    EdgeFilter,
    SmoothNeighbour,
}

// The flags of a word, one by one.
#[derive(Clone, Copy, Debug, PartialEq, Eq)]
pub struct Flags {
    pub above: bool,
    pub left: bool,
    pub luma: bool,
    pub edge_filter: bool,
    pub smooth_neighbour: bool,
}

impl Flag {
    // The flag's bit in a flag word.
    pub fn bit(self) -> u32
        ensures { result ≡ flag_bit self }
    {
        match self {
            Flag::Above => 0,
            Flag::Left => 1,
            Flag::Luma => 2,
            Flag::EdgeFilter => 3,
            Flag::SmoothNeighbour => 4,
        }
    }

    // Whether the flag's bit of the word is 1.
    pub fn is_in(self, word: u16) -> bool
        ensures { result ≡ is_set self word }
    {
        (word >> self.bit()) & 1 == 1
    }
}

impl Flags {
    // One more than the largest word without a stray bit.
    pub const BOUND: u16 = 32;

    // The five flags of a word.
    pub fn of(word: u16) -> Flags
        ensures { result ≡ flags_of word }
    {
        Flags {
            above: Flag::Above.is_in(word),
            left: Flag::Left.is_in(word),
            luma: Flag::Luma.is_in(word),
            edge_filter: Flag::EdgeFilter.is_in(word),
            smooth_neighbour: Flag::SmoothNeighbour.is_in(word),
        }
    }

    // Whether every bit that is no flag's is zero.
    #[tactic(auto, unfolding(crate::specs::Flag::no_stray))]
    pub fn no_stray(word: u16) -> bool
        ensures { result ≡ no_stray word }
    {
        word < Flags::BOUND
    }
}
