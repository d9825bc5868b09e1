// What `derive_params` tests before it looks at a sample (document 01, Refusal numbers): 10, 11, 12, 9.
ghost use Rattle.std.specs.Prelude.{◌≡◌};
ghost use Rattle.refusals.specs.Ladder.{ladder};
ghost use Rattle.colour_params.specs.Rules.{are_references, window_rules};

use colour_sums::window::Window;
use colour_terms::reference;
use colour_terms::reference::Reference;
use numbers::answer::{Answer, Refusal};
use numbers::colour::ColourDirection;

// 11: whether the window's sizes are in range and luma's list and chroma's, of so many entries, hold its rows.
fn are_references(w: Window, luma: usize, chroma: usize) -> bool
    ensures { result ≡ are_references w luma chroma }
{
    let r = Reference {
        width: w.ref_width,
        height: w.ref_height,
    };
    if !r.is_sizes() {
        return false;
    }
    if !r.is_held(luma) {
        return false;
    }
    r.is_held(chroma)
}

// What the tests 10, 11, 12 and 9 answer, where the lists have so many entries.
pub fn answer_of(w: Window, luma: usize, chroma: usize, direction: u32, room: bool) -> Answer
    ensures { result ≡ ladder (window_rules luma chroma w direction room) }
{
    ColourDirection::try_from(direction)?;
    if !are_references(w, luma, chroma) {
        return Err(Refusal::BadReference);
    }
    if !reference::is_lines(w.above_lines, w.left_lines) {
        return Err(Refusal::BadLines);
    }
    if !room {
        return Err(Refusal::ShortList);
    }
    Ok(())
}
