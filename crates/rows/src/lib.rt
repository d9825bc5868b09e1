// Rows that are filled entry by entry: entry i is what a closure gives of i.
#![tactic(auto)]

ghost use Rattle.std.specs.Prelude.{◌≡◌, length};
ghost use Rattle.lists.specs.Fill.{tab};
ghost use Rattle.rows.specs.Filled.{TakesBelow, FilledBy};

// A row of any length, by a loop that the compiler makes vectors of.
pub fn fill_long<T: Copy, F: Fn(usize) -> T>(row: &mut [T], f: F)
    requires { TakesBelow (length row.old) (F.pre f) }
    ensures { FilledBy (length row.old) (F.post f) row.new }
{
    for (i, x) in row.iter_mut().enumerate() {
        *x = f(i);
    }
}

// A row of four, without a loop: the compiler makes no vector loop of so short a one. All four are worked out before the first is stored.
pub fn fill_four<T: Copy, F: Fn(usize) -> T>(row: &mut [T], f: F)
    requires four { length row.old ≡ 4 }
    requires takes { TakesBelow (length row.old) (F.pre f) }
    ensures { FilledBy (length row.old) (F.post f) row.new }
{
    let x = f(0);
    let y = f(1);
    let z = f(2);
    let u = f(3);
    row[0] = x;
    row[1] = y;
    row[2] = z;
    row[3] = u;
}

// A row of any length, one of four without a loop.
pub fn fill<T: Copy, F: Fn(usize) -> T>(row: &mut [T], f: F)
    requires { TakesBelow (length row.old) (F.pre f) }
    ensures { FilledBy (length row.old) (F.post f) row.new }
{
    if row.len() == 4 {
        fill_four(row, f);
    } else {
        fill_long(row, f);
    }
}

// v everywhere. The library's `fill` stores the last entry by itself, and so takes up to twice as long where the length is a multiple of eight.
pub fn repeat<T: Copy>(row: &mut [T], v: T)
    ensures { row.new ≡ tab (length row.old) (λ i. v) }
{
    fill_long(row, |_| v);
}
