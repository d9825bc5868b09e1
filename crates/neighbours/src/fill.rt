// The edges and the corner of a block whose samples were tested (document 01, From samples to edges).
ghost use Rattle.std.specs.Prelude.{◌≡◌, true, ℕ, ◌*◌, ◌≤◌, ◌<◌, pos, length};
ghost use Rattle.lists.specs.Fill.{filled};
ghost use Rattle.samples.specs.Sample.{Readable};
ghost use Rattle.edge_line.specs.Onward.{onward};
ghost use Rattle.block_spec.specs.Behind.{corner_behind};
ghost use Rattle.sides.specs.Spot.{spot_value, SpotLies, SpotReadable};
ghost use Rattle.sides.specs.Side.{side_at, side_value, SideLies};
ghost use Rattle.sides.specs.Read.{all_read};
ghost use Rattle.sides.specs.Values.{value_of, above_of, left_of};
ghost use Rattle.block_spec.specs.Placed.{Placed};

use block_spec::spec::IntraRefSpec;
use edge_line::edge;
use numbers::size::Size;
use sides::{Side, Spot};

// The number that an entry is.
fn value_at(plane: &[f32], spot: Spot) -> i32
    requires { SpotLies (length plane.now) spot × SpotReadable plane.now spot }
    ensures { result ≡ spot_value plane.now spot }
{
    match spot {
        Spot::Sample(p) => samples::read_sample(plane[p]),
        Spot::Number(z) => z,
    }
}

// The 2 bs entries of a neighbour's edge: its line of samples and then the last of them again, or `spare` in each where it is missing.
fn fill_side(plane: &[f32], side: Side, spare: i32, edge: &mut [i32])
    requires side_lies { SideLies (length plane.now) side × (128 ≤ length edge.old) }
    requires readable { side.there ≡ true → (c : ℕ) → c < 2 * side.bs → Readable (side_at plane.now side c) }
    ensures { edge.new ≡ filled (2 * side.bs) (side_value plane.now side spare) edge.old }
{
    let mut end = 0;
    let mut last = spare;
    if side.there {
        end = side.end;
        edge::read_line(
            plane,
            side.start,
            side.stride,
            side.bs,
            side.first,
            end,
            edge,
        );
        last = edge[end - 1];
    }
    edge::repeat_from(last, end, 2 * side.bs, edge);
}

// Zeros from entry 2 b on, up to 128.
fn clear_rest(b: u16, edge: &mut [i32])
    requires { (b ≤ 64) × (128 ≤ length edge.old) }
    ensures { edge.new ≡ filled 128 (onward edge.old (2 * b) (pos 0)) edge.old }
{
    edge::repeat_from(0, 2 * b as usize, Size::REF_CAP, edge);
}

// Both edges are written; the corner's number is returned.
pub fn fill_edges(
    plane: &[f32],
    width: usize,
    s: IntraRefSpec,
    above: &mut [i32],
    left: &mut [i32],
) -> i32
    requires placed { Placed (length plane.now) width s × (all_read plane.now width s ≡ true) }
    requires in_bounds { (128 ≤ length above.old) × (128 ≤ length left.old) }
    ensures { (above.new ≡ above_of plane.now width s above.old) × (left.new ≡ left_of plane.now width s left.old) × (result ≡ value_of width plane.now (corner_behind s)) }
{
    let corner = value_at(plane, sides::corner_at(width, s));
    fill_side(
        plane,
        sides::above_of(width, s),
        sides::above_spare(s, corner),
        above,
    );
    clear_rest(s.b, above);
    fill_side(
        plane,
        sides::left_of(width, s),
        sides::left_spare(s, corner),
        left,
    );
    clear_rest(s.b, left);
    corner
}
