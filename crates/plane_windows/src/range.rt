// Refusal 8 of a rectangle of a plane (document 02, request (v)): row by row, without a branch in a row.
ghost use Rattle.std.specs.Prelude.{◌≡◌, true, pos, length, get_or};
ghost use Rattle.std.specs.Float.{nan};
ghost use Rattle.signed.specs.Range.{inside};
ghost use Rattle.samples.specs.Sample.{is_sample};
ghost use Rattle.edge_line.specs.Every.{every};
ghost use Rattle.plane_windows.specs.Lies.{place_at, Lies};

use crate::patch::Patch;
use edge_line::run;

// Whether each sample of a rectangle is a number in 0..m.
pub fn all_samples(plane: &[f32], width: usize, p: Patch, m: i32) -> bool
    requires { Lies (length plane.now) width p.x p.y p.w p.h × (inside (pos 4095) m ≡ true) }
    ensures { result ≡ every (λ j. every (λ i. is_sample m (get_or plane.now (place_at width p.x p.y i j) nan)) p.w) p.h }
{
    let x = p.x;
    let y = p.y;
    let w = p.w;
    let h = p.h;
    let mut ok = true;
    let mut o = y * width + x;
    let mut j = 0;
    while j < h {
        let here = run::run_in_range(plane, o, 1, w, m);
        ok = ok & here;
        o += width;
        j += 1;
    }
    ok
}
