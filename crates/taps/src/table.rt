// The taps of a plane's samples, phase by phase, each table handed out in one place (document 01, Directions).
ghost use Rattle.std.specs.Prelude.{◌≡◌, true, false};
ghost use Rattle.taps.specs.Quads.{table_of};

use crate::f2::F2;
use crate::f4::F4;

// Luma's four taps.
pub fn luma_table() -> [[i32; 4]; 32]
    ensures { result ≡ table_of true }
{
    F4
}

// Chroma's two taps, as four.
pub fn chroma_table() -> [[i32; 4]; 32]
    ensures { result ≡ table_of false }
{
    F2
}
