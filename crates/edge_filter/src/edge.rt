// An edge as a list that starts four entries early and ends with its last entry repeated, as it is or filtered (document 01, Directions). Entries are
// copied one by one: with `copy_from_slice`, which calls C's memcpy, a filtered edge takes up to 15 % longer.
ghost use Rattle.std.specs.Prelude.{◌≡◌, true, ◌≤◌, ◌<◌, ◌+◌, length, pos};
ghost use Rattle.signed.specs.Range.{inside, Edge};
ghost use Rattle.lists.specs.Fill.{tab, filled};
ghost use Rattle.edge_filter.specs.Filter.{edge as edge_of, padded, filtered};
ghost use Rattle.edge_filter.specs.Padded.{entry_at, Ends};

use kernels::blur;

// The corner, the edge's entries and the last of them on to `size`.
fn pad_edge(corner: i32, edge: &[i32], n: usize, size: usize, list: &mut [i32])
    requires n_nonzero { (0 < n) × (n ≤ 128) × (n ≤ length edge.now) × (n + 7 ≤ size) × (size ≤ length list.old) }
    requires edge { Edge 4095 n edge.now × (inside (pos 4095) corner ≡ true) }
    ensures { list.new ≡ filled size (padded 4 n (edge_of corner edge.now)) list.old }
{
    rows::repeat(&mut list[..5], corner);
    rows::fill_long(&mut list[5..n + 5], |i| edge[i]);
    rows::repeat(&mut list[n + 5..size], edge[n - 1]);
}

// The places 1 .. n of `pad`, filtered by the strength s below the limit.
fn filter_part(s: usize, lim: usize, n: usize, pad: &[i32], to: &mut [i32])
    requires { (0 < s) × (s ≤ 3) × (0 < lim) × (n ≤ 128) × (length to.old ≡ n) × Ends n pad.now }
    ensures { to.new ≡ tab (length to.old) (λ i. filtered s lim n (entry_at pad.now) (i + 1)) }
{
    let top = n.min(lim - 1);
    blur::blur_by(s, &pad[3..], &mut to[..top]);
    rows::fill_long(&mut to[top..], |i| pad[top + 5 + i]);
}

// The list of `pad`, filtered, its ends repeated.
fn filter_edge(s: usize, lim: usize, n: usize, size: usize, pad: &[i32], list: &mut [i32])
    requires { (0 < s) × (s ≤ 3) × (0 < lim) × (n ≤ 128) × (n + 7 ≤ size) × (size ≤ length list.old) × Ends n pad.now }
    ensures { list.new ≡ filled size (padded 4 n (filtered s lim n (entry_at pad.now))) list.old }
{
    rows::repeat(&mut list[..5], pad[4]);
    filter_part(s, lim, n, pad, &mut list[5..n + 5]);
    let last = list[n + 4];
    rows::repeat(&mut list[n + 5..size], last);
}

// The edge's list, filtered by the strength s, its ends repeated; `pad` is room to work in.
pub fn ready_edge(
    corner: i32,
    edge: &[i32],
    s: usize,
    lim: usize,
    n: usize,
    size: usize,
    pad: &mut [i32],
    list: &mut [i32],
)
    requires n_nonzero { (0 < n) × (n ≤ 128) × (s ≤ 3) × (0 < lim) × (n ≤ length edge.now) × (n + 7 ≤ size) × (size ≤ length pad.old) × (size ≤ length list.old) }
    requires edge { Edge 4095 n edge.now × (inside (pos 4095) corner ≡ true) }
    ensures { list.new ≡ filled size (padded 4 n (filtered s lim n (edge_of corner edge.now))) list.old }
{
    if s == 0 {
        pad_edge(corner, edge, n, size, list);
    } else {
        pad_edge(corner, edge, n, size, pad);
        filter_edge(s, lim, n, size, pad, list);
    }
}
