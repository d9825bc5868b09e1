// A rectangle of a plane is read into a list of rows of 256 entries (document 02, request (v): "each sample's reading times 8").
ghost use Rattle.std.specs.Prelude.{◌≡◌, true, ℕ, ◌+◌, ◌*◌, ◌≤◌, ◌<◌, pos, nat_abs, length, get_or};
ghost use Rattle.std.specs.Float.{nan};
ghost use Rattle.signed.specs.Range.{inside};
ghost use Rattle.lists.specs.Fill.{tab};
ghost use Rattle.samples.specs.Sample.{reading, Readable};
ghost use Rattle.plane_windows.specs.Lies.{place_at, Lies, InRows};
ghost use Rattle.plane_windows.specs.Into.{read_at, Into};

use crate::patch::Patch;
use colour_terms::reference::Reference;

// A row of samples, each reading so many times.
fn read_row(row: &[f32], times: i32, part: &mut [i32])
    requires part_in_bounds { (length part.old ≤ length row.now) × (inside (pos 8) times ≡ true) }
    requires by_index { (i : ℕ) → i < length part.old → Readable (get_or row.now i nan) }
    ensures { part.new ≡ tab (length part.old) (λ i. pos (nat_abs times * reading (get_or row.now i nan))) }
{
    let mut i = 0;
    while i < part.len() {
        part[i] = times * samples::read_sample(row[i]);
        i += 1;
    }
}

// The rectangle p of a window that stands at column x and row y of the plane, to its own place in the list.
pub fn read_patch(
    plane: &[f32],
    width: usize,
    x: usize,
    y: usize,
    p: Patch,
    times: i32,
    window: &mut [i32],
)
    requires lies { Lies (length plane.now) width (x + p.x) (y + p.y) p.w p.h × InRows (length window.old) p.x p.y p.w p.h }
    requires times_value { (inside (pos 8) times ≡ true) × ((i j : ℕ) → i < p.w → j < p.h → Readable (get_or plane.now (place_at width (x + p.x) (y + p.y) i j) nan)) }
    ensures { Into (read_at (nat_abs times) width x y plane.now) p.x p.y p.w p.h window.old window.new }
{
    let left = p.x;
    let top = p.y;
    let w = p.w;
    let h = p.h;
    let mut o = (y + top) * width + (x + left);
    let mut k = top * Reference::STRIDE + left;
    let mut j = 0;
    while j < h {
        let e = o + w;
        let n = k + w;
        read_row(&plane[o..e], times, &mut window[k..n]);
        o += width;
        k += Reference::STRIDE;
        j += 1;
    }
}
