// An edge along a line of samples from `start` on. `first` of its first bs entries have their own sample, and the last of these repeats up to bs; from
// bs up to `end` each entry has its own again. Where `first` is bs, the two runs are taken as one. `repeat_from` puts one number into the entries after.
ghost use Rattle.std.specs.Prelude.{◌≡◌, true, ℕ, ◌-◌, ◌*◌, ◌≤◌, ◌<◌, pos, length};
ghost use Rattle.signed.specs.Range.{inside};
ghost use Rattle.lists.specs.Fill.{filled};
ghost use Rattle.samples.specs.Sample.{is_sample, reading, Readable};
ghost use Rattle.edge_line.specs.Along.{along};
ghost use Rattle.edge_line.specs.Every.{every};
ghost use Rattle.edge_line.specs.Onward.{onward};
ghost use Rattle.edge_line.specs.Run.{run_at, Line};

use crate::run;

// Whether each sample behind the 2 bs entries is a number in 0..m.
pub fn edge_in_range(
    plane: &[f32],
    start: usize,
    stride: usize,
    bs: usize,
    first: usize,
    end: usize,
    m: i32,
) -> bool
    requires { Line (length plane.now) start stride bs first (end - bs) × (bs ≤ end) × (inside (pos 4095) m ≡ true) }
    ensures { result ≡ every (λ c. is_sample m (run_at plane.now start stride (along bs first (end - bs) c))) (2 * bs) }
{
    if first == bs {
        return run::run_in_range(plane, start, stride, end, m);
    }
    if !run::run_in_range(plane, start, stride, first, m) {
        return false;
    }
    run::run_in_range(plane, start + bs * stride, stride, end - bs, m)
}

// The samples behind its entries below `end`, read.
pub fn read_line(
    plane: &[f32],
    start: usize,
    stride: usize,
    bs: usize,
    first: usize,
    end: usize,
    edge: &mut [i32],
)
    requires line { Line (length plane.now) start stride bs first (end - bs) × (bs ≤ end) × (128 ≤ length edge.old) }
    requires by_index { (c : ℕ) → c < 2 * bs → Readable (run_at plane.now start stride (along bs first (end - bs) c)) }
    ensures { edge.new ≡ filled end (λ c. pos (reading (run_at plane.now start stride (along bs first (end - bs) c)))) edge.old }
{
    let from = if first < bs {
        run::read_and_repeat(plane, start, stride, first, bs, edge);
        bs
    } else {
        0
    };
    run::read_run(plane, start + from * stride, stride, &mut edge[from..end]);
}

// One number from entry `from` on, up to `to`.
pub fn repeat_from(v: i32, from: usize, to: usize, edge: &mut [i32])
    requires { (from ≤ to) × (to ≤ length edge.old) }
    ensures { edge.new ≡ filled to (onward edge.old from v) edge.old }
{
    rows::repeat(&mut edge[from..to], v);
}
