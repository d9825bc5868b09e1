// "Zone 2 filters its corner" (document 01, Directions)
ghost use Rattle.std.specs.Prelude.{◌≡◌, true, pos};
ghost use Rattle.signed.specs.Range.{inside};
ghost use Rattle.strength.specs.Corner.{filtered_corner};

// The corner that zone 2 takes.
pub fn corner_of(filter: bool, wh: usize, left0: i32, corner: i32, above0: i32) -> i32
    requires { (inside (pos 4095) left0 ≡ true) × (inside (pos 4095) corner ≡ true) × (inside (pos 4095) above0 ≡ true) }
    ensures { result ≡ filtered_corner filter wh left0 corner above0 }
{
    if filter && wh >= 24 {
        (5 * left0 + 6 * corner + 5 * above0 + 8) >> 4
    } else {
        corner
    }
}
