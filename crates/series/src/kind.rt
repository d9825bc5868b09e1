// What a number of a text stands for in a list of another kind.

// A word of a row.
pub fn word(n: u32) -> u16 {
    (n % 65536) as u16
}

// The difference that is n modulo 2^16.
pub fn difference(n: u32) -> i16 {
    word(n).cast_signed()
}

// A whole sample.
pub fn sample(n: u32) -> f32 {
    f32::from(word(n))
}

// A float of its bits, and 0.0 for a NaN's.
pub fn float_of(bits: u32) -> f32 {
    if bits % 0x8000_0000 <= 0x7f80_0000 {
        f32::from_bits(bits)
    } else {
        0.0
    }
}
