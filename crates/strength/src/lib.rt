// "Filter strength by 2B and distance d of the angle from its edge's own axis" (document 01, Directions); and the corner that zone 2 takes.
#![tactic(auto)]

pub mod corner;

ghost use Rattle.std.specs.Prelude.{◌≡◌};
ghost use Rattle.strength.specs.Strength.{plain_strength, softer_strength, strength};

// With no smooth neighbour.
fn plain_strength(wh: usize, d: usize) -> usize
    ensures { result ≡ plain_strength wh d }
{
    if wh <= 8 {
        if d >= 56 { 1 } else { 0 }
    } else if wh <= 16 {
        if d >= 40 { 1 } else { 0 }
    } else if wh <= 24 {
        if d >= 32 {
            3
        } else if d >= 16 {
            2
        } else if d >= 8 {
            1
        } else {
            0
        }
    } else if wh <= 32 {
        if d >= 32 {
            3
        } else if d >= 4 {
            2
        } else if d >= 1 {
            1
        } else {
            0
        }
    } else if d >= 1 {
        3
    } else {
        0
    }
}

// Next to a smooth neighbour.
fn softer_strength(wh: usize, d: usize) -> usize
    ensures { result ≡ softer_strength wh d }
{
    if wh <= 8 {
        if d >= 64 {
            2
        } else if d >= 40 {
            1
        } else {
            0
        }
    } else if wh <= 16 {
        if d >= 48 {
            2
        } else if d >= 20 {
            1
        } else {
            0
        }
    } else if wh <= 24 {
        if d >= 4 { 3 } else { 0 }
    } else if d >= 1 {
        3
    } else {
        0
    }
}

// The strength, which is 0 where the edge filter is not set.
pub fn filter_strength(filter: bool, smooth: bool, wh: usize, d: usize) -> usize
    ensures { result ≡ strength filter smooth wh d }
{
    if filter {
        if smooth {
            return softer_strength(wh, d);
        } else {
            return plain_strength(wh, d);
        }
    } else {
        return 0;
    }
}
