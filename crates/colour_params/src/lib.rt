// Colour parameters from a reference window (document 01, Colour parameters): `derive_params` takes any input and tests 2, 10, 11, 12, 9, 13, 14 in
// that order.
#![tactic(auto)]

mod rules;

ghost use Rattle.std.specs.Prelude.{◌≡◌, true};
ghost use Rattle.numbers.specs.Depth.{bits_of};
ghost use Rattle.colour_terms.specs.Terms.{entry};
ghost use Rattle.colour_sums.specs.Sum.{Laid};
ghost use Rattle.colour_params.specs.Derived.{sampled, derived, with_zeros, Written};

use colour_samples::sample::DepthTerms;
use colour_sums::window;
use colour_sums::window::Window;
use elimination::Params;
use numbers::answer::{Answer, Refusal};
use numbers::colour::ColourDirection;
use numbers::depth::Depth;

// An answer and beside it the parameters, which are zeros where it refuses. Document 01 asks for zeros ("where three parameters would be returned they
// are zeros"), so that what `derive_params` returns is no Result.
#[derive(Clone, Copy)]
pub struct Derived {
    pub answer: Answer,
    pub params: Params,
}

// What the samples of a window give that passed the tests before 13: its parameters, or a refusal.
pub fn sampled(
    luma: &[i32],
    chroma: &[i32],
    w: Window,
    direction: ColourDirection,
    depth: Depth,
    d: u32,
) -> Result<Params, Refusal>
    requires { Laid w luma.now chroma.now × (bits_of depth ≡ d) }
    ensures { result ≡ sampled (entry luma.now) (entry chroma.now) w direction d }
{
    let n = window::count_of(w);
    if n == 0 {
        return Ok(colour_solve::flat());
    }
    let g = window::gather(luma, chroma, w, n, direction, DepthTerms::of(depth, d));
    let Some(s) = g else {
        return Err(Refusal::BadColourSample);
    };
    if !colour_solve::is_small(s) {
        return Err(Refusal::SumTooLarge);
    }
    Ok(colour_solve::params_of(s, n, depth, d))
}

// The parameters, or a refusal; `room` says whether the caller's list can take them.
pub fn derive(
    luma: &[i32],
    chroma: &[i32],
    w: Window,
    direction: u32,
    d: u32,
    room: bool,
) -> Result<Params, Refusal>
    ensures { result ≡ derived luma.now chroma.now w direction d room }
{
    let depth = colour_terms::depth_of(d)?;
    rules::answer_of(w, luma.len(), chroma.len(), direction, room)?;
    sampled(luma, chroma, w, ColourDirection::named(direction), depth, d)
}

// The parameters of a window, or a refusal with zeros.
pub fn derive_params(luma: &[i32], chroma: &[i32], w: Window, direction: u32, d: u32) -> Derived
    ensures { result ≡ with_zeros (derived luma.now chroma.now w direction d true) }
{
    match derive(luma, chroma, w, direction, d, true) {
        Ok(params) => Derived {
            answer: Ok(()),
            params,
        },
        Err(refusal) => Derived {
            answer: Err(refusal),
            params: Params {
                x0: 0,
                x1: 0,
                x2: 0,
            },
        },
    }
}

// The same with the parameters written to a list of at least three entries, which a refusal leaves as it was.
pub fn derive_into(
    luma: &[i32],
    chroma: &[i32],
    w: Window,
    direction: u32,
    d: u32,
    params: &mut [i32],
) -> Answer
    ensures { Written luma.now chroma.now w direction d params.old params.new result }
{
    let p = derive(luma, chroma, w, direction, d, 3 <= params.len())?;
    let x0 = p.x0;
    let x1 = p.x1;
    let x2 = p.x2;
    params[0] = x0;
    params[1] = x1;
    params[2] = x2;
    Ok(())
}
