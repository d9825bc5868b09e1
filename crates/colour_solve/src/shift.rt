// "Sums are shifted by 22 - 2D - ceil(log2 count), so each ends at or below 2^22." (document 01, Colour parameters)
ghost use Rattle.std.specs.Prelude.{◌≡◌, ◌^◌, ◌≤◌, pos};
ghost use Rattle.colour_samples.specs.Nine.{NineMost};
ghost use Rattle.colour_solve.specs.Shift.{ceil_log2, shifted, shifted_sums};

use colour_samples::nine::Nine;
use elimination::Sums;
use fixed_product::product;

// ceil(log2 n).
pub fn ceil_log2(n: u32) -> u32
    ensures { (result ≡ ceil_log2 n) × (result ≤ 32) }
{
    if n < 2 {
        return 0;
    }
    product::ilog2(n - 1) + 1
}

// s shifted by 22 - e: up by 22, and then down by e.
fn shifted(s: u64, e: u32) -> i32
    requires { (s ≤ 2 ^ 41) × (s ≤ 2 ^ e) × (e ≤ 62) }
    ensures { result ≡ pos (shifted e s) }
{
    ((s << 22) >> e) as i32
}

// The nine sums, each shifted by 22 - e.
pub fn shift_all(s: Nine, e: u32) -> Sums
    requires { NineMost (2 ^ 41) s × NineMost (2 ^ e) s × (e ≤ 62) }
    ensures { result ≡ shifted_sums e s }
{
    Sums {
        a00: shifted(s.a00, e),
        a01: shifted(s.a01, e),
        a02: shifted(s.a02, e),
        a11: shifted(s.a11, e),
        a12: shifted(s.a12, e),
        a22: shifted(s.a22, e),
        y0: shifted(s.y0, e),
        y1: shifted(s.y1, e),
        y2: shifted(s.y2, e),
    }
}
