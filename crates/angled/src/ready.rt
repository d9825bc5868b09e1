// The edges made ready for their zone: each as a list, filtered as the direction is set. `pad` is room to work in.
ghost use Rattle.std.specs.Prelude.{◌≡◌, true, ◌+◌, ◌≤◌, ◌<◌, pos, length};
ghost use Rattle.signed.specs.Range.{inside, Edge};
ghost use Rattle.lists.specs.Fill.{filled};
ghost use Rattle.edge_filter.specs.Filter.{padded};
ghost use Rattle.angled.specs.AtAngle.{above_ready, left_ready};

use setting::Setting;

// n entries above.
pub fn above_list(
    bs: usize,
    set: Setting,
    n: usize,
    size: usize,
    above: &[i32],
    corner: i32,
    pad: &mut [i32],
    list: &mut [i32],
)
    requires bs_nonzero { (0 < bs) × (bs ≤ n) × (n ≤ 128) × (n ≤ length above.now) × (n + 7 ≤ size) × (size ≤ length pad.old) × (size ≤ length list.old) }
    requires edge { Edge 4095 n above.now × (inside (pos 4095) corner ≡ true) }
    ensures { list.new ≡ filled size (padded 4 n (above_ready bs bs set n above.now corner)) list.old }
{
    let s = set.strength_above(bs + bs);
    let lim = set.limit_above(n, bs);
    edge_filter::edge::ready_edge(corner, above, s, lim, n, size, pad, list);
}

// n entries at the left.
pub fn left_list(
    bs: usize,
    set: Setting,
    n: usize,
    size: usize,
    left: &[i32],
    corner: i32,
    pad: &mut [i32],
    list: &mut [i32],
)
    requires bs_nonzero { (0 < bs) × (bs ≤ n) × (n ≤ 128) × (n ≤ length left.now) × (n + 7 ≤ size) × (size ≤ length pad.old) × (size ≤ length list.old) }
    requires edge { Edge 4095 n left.now × (inside (pos 4095) corner ≡ true) }
    ensures { list.new ≡ filled size (padded 4 n (left_ready bs bs set n left.now corner)) list.old }
{
    let s = set.strength_left(bs + bs);
    let lim = set.limit_left(n, bs);
    edge_filter::edge::ready_edge(corner, left, s, lim, n, size, pad, list);
}
