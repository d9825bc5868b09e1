// Rows of samples.
ghost use Rattle.std.specs.Prelude.{◌≡◌, ◌≤◌, pos, nat_abs, length, get_or};
ghost use Rattle.signed.specs.Range.{Edge};
ghost use Rattle.lists.specs.Fill.{tab};
ghost use Rattle.lists.specs.Block.{sample};
ghost use Rattle.paeth_rows.specs.Chosen.{chosen};

use crate::value;

// A row of any length.
pub fn paeth_row(above: &[i32], l: i32, corner: i32, row: &mut [f32])
    requires { (length row.old ≤ length above.now) × Edge 4095 (length row.old) above.now × (nat_abs l ≤ 4095) × (nat_abs corner ≤ 4095) }
    ensures { row.new ≡ tab (length row.old) (λ c. sample (chosen l (get_or above.now c (pos 0)) corner)) }
{
    rows::fill(row, |c| value::paeth_sample(l, above[c], corner));
}
