// A colour job over a luma plane and a chroma plane (document 02, request (v)): its samples are tested, those that are used are read into two windows,
// and the block that their parameters predict is written into the chroma plane.
#![tactic(auto)]

ghost use Rattle.std.specs.Prelude.{◌≡◌, true, ◌&&◌, ◌*◌, ◌≤◌, pos, length};
ghost use Rattle.numbers.specs.Depth.{bits_of, is_depth, most};
ghost use Rattle.lists.specs.Block.{sample};
ghost use Rattle.refusals.specs.Promise.{Promise};
ghost use Rattle.paint.specs.Painted.{painted};
ghost use Rattle.colour_terms.specs.Terms.{entry};
ghost use Rattle.colour_rules.specs.Rules.{is_luma_in_range};
ghost use Rattle.colour_block.specs.Predicted.{chroma_at};
ghost use Rattle.colour_words.specs.Colour.{colour_block, colour_rect};
ghost use Rattle.colour_words.specs.Placed.{ColourLaid};
ghost use Rattle.colour_windows.specs.Windows.{luma_read, chroma_read};
ghost use Rattle.colour_job.specs.Answer.{colour_answer};
ghost use Rattle.colour_job.specs.Done.{colour_done};
ghost use Rattle.colour_windows.specs.Held.{Room};
ghost use Rattle.colour_job.specs.Passed.{Passed, Given};

use colour_block::block;
use colour_windows::{chroma, luma};
use colour_words::ColourWords;
use elimination::Params;
use numbers::answer::{Answer, Refusal};
use numbers::depth::Depth;
use plane_windows::patch::Patch;
use plane_windows::write;

// The depth whose D the word is.
fn depth_of(d: u16) -> Depth
    requires { is_depth d ≡ true }
    ensures { bits_of result ≡ d }
{
    Depth::try_from(d).unwrap()
}

// 8, of both windows.
fn all_read(luma: &[f32], chroma: &[f32], width: usize, c: ColourWords, m: i32) -> bool
    requires { ColourLaid (length luma.now) width c × (length chroma.now ≡ length luma.now) × (m ≡ pos (most c.d)) }
    ensures { result ≡ (luma_read width c luma.now && chroma_read width c chroma.now) }
{
    if !luma::luma_read(luma, width, c, m) {
        return false;
    }
    chroma::chroma_read(chroma, width, c, m)
}

// The parameters that the windows give, or 14. Luma's list then has what the block needs.
fn derive(
    luma: &[f32],
    chroma: &[f32],
    width: usize,
    c: ColourWords,
    depth: Depth,
    luma_window: &mut [i32],
    chroma_window: &mut [i32],
) -> Result<Params, Refusal>
    requires { Passed width c luma.now chroma.now × (bits_of depth ≡ c.d) × Room c luma_window.old × Room c chroma_window.old }
    ensures { Given width c luma.now chroma.now luma_window.old luma_window.new result }
{
    luma::read_luma(luma, width, c, luma_window);
    chroma::read_chroma(chroma, width, c, chroma_window);
    let b = c.block();
    let d = b.d;
    colour_params::sampled(luma_window, chroma_window, c.window(), b.colour(), depth, d)
}

// The block that the parameters predict, in `out` and then in the chroma plane.
fn write_block(
    chroma: &mut [f32],
    width: usize,
    c: ColourWords,
    p: Params,
    luma_window: &[i32],
    out: &mut [i32],
)
    requires colour_laid { ColourLaid (length chroma.old) width c × Room c luma_window.now × (c.width * c.height ≤ length out.old) }
    requires c_value { is_luma_in_range (entry luma_window.now) (colour_block c) ≡ true }
    ensures { chroma.new ≡ painted width (colour_rect c) (λ r k. sample (chroma_at (entry luma_window.now) (colour_block c) p.x0 p.x1 p.x2 r k)) chroma.old }
{
    block::predict_into(luma_window, c.block(), p.x0, p.x1, p.x2, out);
    let place = Patch {
        x: c.x as usize,
        y: c.y as usize,
        w: c.width as usize,
        h: c.height as usize,
    };
    write::write_patch(chroma, width, place, out);
}

// A job that the refusals before 8 let pass: 8, 14, and then its block. The windows and the block have room in what is lent.
pub fn do_colour(
    luma: &[f32],
    chroma: &mut [f32],
    width: usize,
    c: ColourWords,
    luma_window: &mut [i32],
    chroma_window: &mut [i32],
    out: &mut [i32],
) -> Answer
    requires colour_laid { ColourLaid (length luma.now) width c × (length chroma.old ≡ length luma.now) }
    requires room { Room c luma_window.old × Room c chroma_window.old × (c.width * c.height ≤ length out.old) }
    ensures { Promise (colour_answer width c luma.now chroma.old) (colour_done width c luma.now chroma.old) result chroma.new }
{
    let depth = depth_of(c.d);
    if !all_read(luma, chroma, width, c, depth.max()) {
        return Err(Refusal::BadSample);
    }
    let p = derive(luma, chroma, width, c, depth, luma_window, chroma_window)?;
    write_block(chroma, width, c, p, luma_window, out);
    Ok(())
}
