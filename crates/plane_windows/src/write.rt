// A block of whole numbers is written into a plane as f32 samples (document 02, request (v): "It writes width by height samples at x, y").
ghost use Rattle.std.specs.Prelude.{◌≡◌, ◌+◌, ◌*◌, ◌≤◌, ◌<◌, pos, length, get_or};
ghost use Rattle.signed.specs.Range.{Edge};
ghost use Rattle.lists.specs.Fill.{tab};
ghost use Rattle.lists.specs.Block.{sample};
ghost use Rattle.paint.specs.Painted.{painted};
ghost use Rattle.plane_windows.specs.Lies.{Lies};

use crate::patch::Patch;

// A row of numbers in 0..4095, as samples.
fn write_row(from: &[i32], row: &mut [f32])
    requires { (length row.old ≤ length from.now) × Edge 4095 (length row.old) from.now }
    ensures { row.new ≡ tab (length row.old) (λ i. sample (get_or from.now i (pos 0))) }
{
    let mut i = 0;
    while i < row.len() {
        row[i] = from[i] as f32;
        i += 1;
    }
}

// The rectangle p, row after row from the numbers of `from`.
pub fn write_patch(plane: &mut [f32], width: usize, p: Patch, from: &[i32])
    requires lies { Lies (length plane.old) width p.x p.y p.w p.h }
    requires w_in_bounds { (p.h * p.w ≤ length from.now) × Edge 4095 (p.h * p.w) from.now }
    ensures { plane.new ≡ painted width (record { x = p.x; y = p.y; w = p.w; h = p.h }) (λ r c. sample (get_or from.now (r * p.w + c) (pos 0))) plane.old }
{
    let x = p.x;
    let y = p.y;
    let w = p.w;
    let h = p.h;
    let mut o = y * width + x;
    let mut k = 0;
    let mut r = 0;
    while r < h {
        let e = o + w;
        let n = k + w;
        write_row(&from[k..n], &mut plane[o..e]);
        o += width;
        k = n;
        r += 1;
    }
}
