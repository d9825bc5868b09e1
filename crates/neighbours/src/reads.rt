// The test of the samples that `build_refs` and a job read, 8 (document 01, Refusal numbers): those behind the entries of both edges, and behind the corner.
ghost use Rattle.std.specs.Prelude.{◌≡◌, true, pos, length};
ghost use Rattle.numbers.specs.Depth.{most};
ghost use Rattle.signed.specs.Range.{inside};
ghost use Rattle.sides.specs.Spot.{spot_in_range, SpotLies};
ghost use Rattle.sides.specs.Side.{side_read, SideLies};
ghost use Rattle.sides.specs.Read.{all_read};
ghost use Rattle.block_spec.specs.Placed.{Placed};

use block_spec::spec::IntraRefSpec;
use edge_line::edge;
use sides::{Side, Spot};

// Whether what stands behind an entry is a number in 0..m, if it is a sample.
fn spot_read(plane: &[f32], spot: Spot, m: i32) -> bool
    requires { SpotLies (length plane.now) spot × (inside (pos 4095) m ≡ true) }
    ensures { result ≡ spot_in_range m plane.now spot }
{
    match spot {
        Spot::Sample(p) => samples::is_sample(plane[p], m),
        Spot::Number(_) => true,
    }
}

// Whether each sample behind the entries of a neighbour's edge is one, if the neighbour is there.
fn side_read(plane: &[f32], side: Side, m: i32) -> bool
    requires { SideLies (length plane.now) side × (inside (pos 4095) m ≡ true) }
    ensures { result ≡ side_read m plane.now side }
{
    if !side.there {
        return true;
    }
    edge::edge_in_range(
        plane,
        side.start,
        side.stride,
        side.bs,
        side.first,
        side.end,
        m,
    )
}

// Both edges, and the corner. The corner's sample is also the one behind every entry of a neighbour that is missing, where the other one is there.
pub fn all_read(plane: &[f32], width: usize, s: IntraRefSpec, m: i32) -> bool
    requires { Placed (length plane.now) width s × (m ≡ pos (most s.d)) }
    ensures { result ≡ all_read plane.now width s }
{
    if !side_read(plane, sides::above_of(width, s), m) {
        return false;
    }
    if !side_read(plane, sides::left_of(width, s), m) {
        return false;
    }
    spot_read(plane, sides::corner_at(width, s), m)
}
