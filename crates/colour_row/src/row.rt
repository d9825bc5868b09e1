// Rows of samples. Entry i of a row is from entry i of the two runs of luma: the direction's and the centre's.
ghost use Rattle.std.specs.Prelude.{◌≡◌, ◌+◌, length};
ghost use Rattle.lists.specs.Fill.{tab};
ghost use Rattle.colour_row.specs.Mixed.{MixReady, Short, mixed};
ghost use Rattle.colour_row.specs.Wides.{Both, Wides};
ghost use Rattle.colour_row.specs.Runs.{at, Runs, RunsAt};

use crate::mix::Mix;
use crate::value;

// A row of a block whose products are all short: no branch inside.
fn short_row(near: &[i32], centre: &[i32], k: Mix, row: &mut [i32])
    requires { MixReady k × Short k × Runs k near.now centre.now (length row.old) }
    ensures { row.new ≡ tab (length row.old) (λ i. mixed k (at near.now i) (at centre.now i)) }
{
    for (i, x) in row.iter_mut().enumerate() {
        *x = value::short_sample(near[i], centre[i], k);
    }
}

// A row of any block, whose parameters' tables are t0 and t1: no branch inside.
fn wide_row(near: &[i32], centre: &[i32], k: Mix, t0: &[i64], t1: &[i64], row: &mut [i32])
    requires { MixReady k × Both k t0.now t1.now × Runs k near.now centre.now (length row.old) }
    ensures { row.new ≡ tab (length row.old) (λ i. mixed k (at near.now i) (at centre.now i)) }
{
    for (i, x) in row.iter_mut().enumerate() {
        *x = value::wide_sample(near[i], centre[i], k, t0, t1);
    }
}

// The row, by the product that serves.
fn either_row(near: &[i32], centre: &[i32], k: Mix, t0: &[i64], t1: &[i64], row: &mut [i32])
    requires { MixReady k × Wides k t0.now t1.now × Runs k near.now centre.now (length row.old) }
    ensures { row.new ≡ tab (length row.old) (λ i. mixed k (at near.now i) (at centre.now i)) }
{
    if k.short {
        short_row(near, centre, k, row);
    } else {
        wide_row(near, centre, k, t0, t1, row);
    }
}

// The row whose runs of luma start at `near` and at `centre`.
pub fn row_at(
    luma: &[i32],
    near: usize,
    centre: usize,
    k: Mix,
    t0: &[i64],
    t1: &[i64],
    row: &mut [i32],
)
    requires { MixReady k × Wides k t0.now t1.now × RunsAt k luma.now near centre (length row.old) }
    ensures { row.new ≡ tab (length row.old) (λ i. mixed k (at luma.now (near + i)) (at luma.now (centre + i))) }
{
    either_row(&luma[near..], &luma[centre..], k, t0, t1, row);
}
