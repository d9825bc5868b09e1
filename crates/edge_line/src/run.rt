// Runs of the plane's samples: n of them, the first at `start` and each next one `stride` further on. Along a row the stride is 1, down a column W.
ghost use Rattle.std.specs.Prelude.{◌≡◌, true, ℕ, ◌-◌, ◌≤◌, ◌<◌, min, pos, length};
ghost use Rattle.signed.specs.Range.{inside};
ghost use Rattle.lists.specs.Fill.{tab, filled};
ghost use Rattle.samples.specs.Sample.{is_sample, reading, Readable};
ghost use Rattle.edge_line.specs.Every.{every};
ghost use Rattle.edge_line.specs.Run.{Run, run_at};

// Whether each sample of a run is a number in 0..m.
#[tactic(auto, unfolding(crate::specs::Every::every))]
pub fn run_in_range(plane: &[f32], start: usize, stride: usize, n: usize, m: i32) -> bool
    requires { Run (length plane.now) start stride n × (inside (pos 4095) m ≡ true) }
    ensures { result ≡ every (λ i. is_sample m (run_at plane.now start stride i)) n }
{
    let mut ok = true;
    for i in 0..n {
        ok &= samples::is_sample(plane[start + i * stride], m);
    }
    ok
}

// A run, read into a part of an edge.
pub fn read_run(plane: &[f32], start: usize, stride: usize, part: &mut [i32])
    requires run { Run (length plane.now) start stride (length part.old) }
    requires by_index { (i : ℕ) → i < length part.old → Readable (run_at plane.now start stride i) }
    ensures { part.new ≡ tab (length part.old) (λ i. pos (reading (run_at plane.now start stride i))) }
{
    rows::fill_long(part, |i| samples::read_sample(plane[start + i * stride]));
}

// Entries from the first on: a run up to `end`, then the entry before `end` again up to `all`.
pub fn read_and_repeat(
    plane: &[f32],
    start: usize,
    stride: usize,
    end: usize,
    all: usize,
    edge: &mut [i32],
)
    requires run { Run (length plane.now) start stride end × (1 ≤ end) × (end ≤ all) × (all ≤ length edge.old) }
    requires by_index { (i : ℕ) → i < end → Readable (run_at plane.now start stride i) }
    ensures { edge.new ≡ filled all (λ i. pos (reading (run_at plane.now start stride (min i (end - 1))))) edge.old }
{
    read_run(plane, start, stride, &mut edge[..end]);
    let last = edge[end - 1];
    rows::repeat(&mut edge[end..all], last);
}
