// Refusals 11 and 12 (document 01, Refusal numbers), what derivation and prediction test alike.
ghost use Rattle.std.specs.Prelude.{◌≡◌, ◌≤◌};
ghost use Rattle.colour_terms.specs.Reference.{most_lines, is_sizes, is_held, is_reference, is_lines};

// The sizes of a reference; luma and chroma have a list each.
#[derive(Clone, Copy)]
pub struct Reference {
    pub width: usize,
    pub height: usize,
}

impl Reference {
    // How far apart the rows of a list lie, `MHCCP_REF_STRIDE` of mhccp.rs.
    pub const STRIDE: usize = 256;

    // Columns, rows and lines are at most so many.
    pub const MOST: usize = 256;

    // Whether the sizes are in range.
    pub fn is_sizes(self) -> bool
        ensures { result ≡ is_sizes self.width self.height }
    {
        self.width <= Reference::MOST && self.height <= Reference::MOST
    }

    // Whether a list of n entries holds the rows.
    pub fn is_held(self, n: usize) -> bool
        requires { self.height ≤ most_lines }
        ensures { result ≡ is_held self.height n }
    {
        self.height * Reference::STRIDE <= n
    }
}

// 11: whether the reference's sizes are in range and a list of n entries holds its rows.
pub fn is_reference(ref_width: usize, ref_height: usize, n: usize) -> bool
    ensures { result ≡ is_reference ref_width ref_height n }
{
    let r = Reference {
        width: ref_width,
        height: ref_height,
    };
    r.is_sizes() && r.is_held(n)
}

// 12: whether the lines are in range.
pub fn is_lines(above_lines: usize, left_lines: usize) -> bool
    ensures { result ≡ is_lines above_lines left_lines }
{
    above_lines <= Reference::MOST && left_lines <= Reference::MOST
}
