// The weights of the smooth predictors (document 01, The predictors): "The 3 x 64 `SM_WEIGHTS` table is copied; its rule is shown over all 192
// entries."
#![tactic(auto)]

mod sm_weights;

ghost use Rattle.std.specs.Prelude.{◌≡◌, true, ◌<◌};
ghost use Rattle.lists.specs.Fill.{tab};
ghost use Rattle.numbers.specs.Size.{is_size};
ghost use Rattle.smooth_weights.specs.Weights.{log2, scale, weight};
ghost use Rattle.smooth_weights.specs.Reach.{reach_of};

use crate::sm_weights::SM_WEIGHTS;

// The 64 weights of a scale. Each arm names its row, so that the compiler copies the row and not the table.
pub fn weights_of(s: usize) -> [u8; 64]
    requires { s < 3 }
    ensures { result ≡ tab 64 (weight s) }
{
    match s {
        0 => SM_WEIGHTS[0],
        1 => SM_WEIGHTS[1],
        _ => SM_WEIGHTS[2],
    }
}

// How many columns of a scale have weights.
pub fn reach_of(s: usize) -> usize
    requires { s < 3 }
    ensures { result ≡ reach_of s }
{
    4 * s + 4
}

// log2 of a size.
pub fn log2_of(bs: usize) -> u32
    requires { is_size bs ≡ true }
    ensures { result ≡ log2 bs }
{
    usize::trailing_zeros(bs)
}

// A size's scale, from its log2.
pub fn scale_of(bs: usize) -> usize
    requires { is_size bs ≡ true }
    ensures { result ≡ scale bs }
{
    let k = log2_of(bs);
    ((k - 1) / 2) as usize
}
