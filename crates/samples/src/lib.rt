// A plane's f32 sample, read as a whole number (document 01, From samples to edges): one addition, and the whole part worked out from the bits.
#![tactic(auto)]

ghost use Rattle.std.specs.Prelude.{◌≡◌, true, T, pos};
ghost use Rattle.std.specs.Float.Ieee.{le, lt, to_unsigned};
ghost use Rattle.signed.specs.Range.{inside};
ghost use Rattle.samples.specs.Sample.{half, bound, is_sample, reading, Readable};

// x without its fraction: the exponent's field says how far the digits are shifted. From 0.5 on that is by 24 places at most, so that no test is needed.
fn whole(x: f32) -> u32
    requires { T (le half x) × T (lt x bound) }
    ensures { result ≡ to_unsigned 32 x }
{
    let bits = f32::to_bits(x);
    let exponent = bits >> 23;
    let digits = 8388608 + bits % 8388608;
    digits >> (150 - exponent)
}

// Whether v is a number in 0..m.
pub fn is_sample(v: f32, m: i32) -> bool
    requires { inside (pos 4095) m ≡ true }
    ensures { result ≡ is_sample m v }
{
    let low = v >= 0.0;
    let high = v <= m as f32;
    low & high
}

// v + 0.5, rounded once, without its fraction.
pub fn read_sample(v: f32) -> i32
    requires { Readable v }
    ensures { result ≡ pos (reading v) }
{
    whole(v + 0.5) as i32
}
