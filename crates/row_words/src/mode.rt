// "Modes: 0 Paeth, 1 smooth, 2 smooth_v, 3 smooth_h, 4 a direction with its delta." (document 01, Ranges and numbers that name things)
ghost use Rattle.std.specs.Prelude.{◌≡◌};
ghost use Rattle.row_words.specs.Dir.{dir_of};
ghost use Rattle.row_words.specs.Mode.{directed_mode, named_mode};

use crate::dir::Dir;
use numbers::answer::Refusal;

// A job's mode is one value: a plain name, or a direction with its delta.
#[derive(Clone, Copy, Debug, PartialEq, Eq)]
pub enum Mode {
    Paeth,
    Smooth,
    SmoothV,
    SmoothH,
    Directional(Dir, i32),
}

impl Mode {
    // A direction with its delta, by their words.
    fn directed(direction: u16, delta: u16) -> Result<Mode, Refusal>
        ensures { result ≡ directed_mode (dir_of direction) delta }
    {
        let dir = Dir::try_from(direction)?;
        if !Dir::is_delta(delta) {
            return Err(Refusal::BadMode);
        }
        Ok(Mode::Directional(dir, Dir::delta(delta)))
    }

    // The mode that a row's words mode, direction and delta name, or refusal 3.
    #[tactic(auto, unfolding(crate::specs::Mode::named_mode))]
    pub fn of(mode: u16, direction: u16, delta: u16) -> Result<Mode, Refusal>
        ensures { result ≡ named_mode mode direction delta }
    {
        match mode {
            0 => Ok(Mode::Paeth),
            1 => Ok(Mode::Smooth),
            2 => Ok(Mode::SmoothV),
            3 => Ok(Mode::SmoothH),
            4 => Mode::directed(direction, delta),
            _ => Err(Refusal::BadMode),
        }
    }
}
