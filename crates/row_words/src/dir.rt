// "Directions 0 to 7: V 90, H 180, D45, D135, D113, D157, D203, D67; the angle is the direction's degrees plus 3 times delta, delta -3 to
// 3." (document 01, Ranges and numbers that name things)
ghost use Rattle.std.specs.Prelude.{◌≡◌, true, ◌≤◌, pos, nat_abs};
ghost use Rattle.row_words.specs.Dir.{dir_of, degrees_of, angle_of, is_delta, delta_of};

use numbers::answer::Refusal;

#[derive(Clone, Copy, Debug, PartialEq, Eq)]
pub enum Dir {
    Vertical,
    Horizontal,
    D45,
    D135,
    D113,
    D157,
    D203,
    D67,
}

impl Dir {
    // A delta is so many degrees, and is -FARTHEST to FARTHEST; a row holds delta + FARTHEST.
    pub const STEP: i32 = 3;

    pub const FARTHEST: i32 = 3;

    // The direction's degrees.
    pub fn angle(self) -> i32
        ensures { result ≡ pos (degrees_of self) }
    {
        match self {
            Dir::Vertical => 90,
            Dir::Horizontal => 180,
            Dir::D45 => 45,
            Dir::D135 => 135,
            Dir::D113 => 113,
            Dir::D157 => 157,
            Dir::D203 => 203,
            Dir::D67 => 67,
        }
    }

    // The angle of the direction with its delta.
    pub fn turned(self, delta: i32) -> usize
        requires { nat_abs delta ≤ 3 }
        ensures { pos result ≡ angle_of self delta }
    {
        (self.angle() + Dir::STEP * delta) as usize
    }

    // Whether a row's word stands for a delta.
    pub fn is_delta(word: u16) -> bool
        ensures { result ≡ is_delta word }
    {
        word as i32 <= 2 * Dir::FARTHEST
    }

    // The delta that a row's word stands for.
    pub fn delta(word: u16) -> i32
        requires { is_delta word ≡ true }
        ensures { result ≡ delta_of word }
    {
        word as i32 - Dir::FARTHEST
    }
}

// The direction whose number the word is.
impl TryFrom<u16> for Dir {
    type Error = Refusal;

    ghost try_from_gives = { λ direction found. found ≡ dir_of direction };

    fn try_from(direction: u16) -> Result<Dir, Refusal> {
        match direction {
            0 => Ok(Dir::Vertical),
            1 => Ok(Dir::Horizontal),
            2 => Ok(Dir::D45),
            3 => Ok(Dir::D135),
            4 => Ok(Dir::D113),
            5 => Ok(Dir::D157),
            6 => Ok(Dir::D203),
            7 => Ok(Dir::D67),
            _ => Err(Refusal::BadMode),
        }
    }
}
