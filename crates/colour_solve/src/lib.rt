// What the nine sums of a window give (document 01, Colour parameters): refusal 14, and the parameters.
#![tactic(auto)]

mod shift;

ghost use Rattle.std.specs.Prelude.{◌≡◌, ◌*◌, ◌≤◌};
ghost use Rattle.numbers.specs.Depth.{bits_of, most};
ghost use Rattle.colour_samples.specs.Nine.{NineMost};
ghost use Rattle.colour_solve.specs.Small.{is_small};
ghost use Rattle.colour_solve.specs.Shift.{flat, params_of};

use colour_samples::nine::Nine;
use elimination::Params;
use numbers::depth::Depth;

// Whether none of the nine sums exceeds the largest that is accepted.
pub fn is_small(s: Nine) -> bool
    ensures { result ≡ is_small s }
{
    (s.a00 <= Nine::MOST)
        & (s.a01 <= Nine::MOST)
        & (s.a02 <= Nine::MOST)
        & (s.a11 <= Nine::MOST)
        & (s.a12 <= Nine::MOST)
        & (s.a22 <= Nine::MOST)
        & (s.y0 <= Nine::MOST)
        & (s.y1 <= Nine::MOST)
        & (s.y2 <= Nine::MOST)
}

// "No sample counted gives 0, 0, 65536."
pub fn flat() -> Params
    ensures { result ≡ flat }
{
    Params {
        x0: 0,
        x1: 0,
        x2: 65536,
    }
}

// The parameters of n samples, at least one, with the sums s.
pub fn params_of(s: Nine, n: usize, depth: Depth, d: u32) -> Params
    requires { (bits_of depth ≡ d) × (1 ≤ n) × (n ≤ 65536) × NineMost (n * (most d * most d)) s }
    ensures { result ≡ params_of d n s }
{
    let e = 2 * d + shift::ceil_log2(n as u32);
    elimination::gauss_elimination(shift::shift_all(s, e), elimination::regulariser(depth))
}
