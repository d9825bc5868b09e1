// A block: row after row.
ghost use Rattle.std.specs.Prelude.{◌≡◌, length};
ghost use Rattle.lists.specs.Block.{block};
ghost use Rattle.direct_calls.specs.Given.{Given};
ghost use Rattle.paeth.specs.Paeth.{paeth_at};

use paeth_rows::row;

// A block, in out[..bs * bs].
pub fn paeth_into(bs: usize, above: &[i32], left: &[i32], corner: i32, out: &mut [f32])
    requires { Given bs 4095 above.now left.now corner (length out.old) }
    ensures { out.new ≡ block bs bs (paeth_at bs above.now left.now corner) out.old }
{
    for r in 0..bs {
        let o = r * bs;
        row::paeth_row(above, left[r], corner, &mut out[o..o + bs]);
    }
}
