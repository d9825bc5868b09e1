// One sample: its taps, and the clip to 0..m.
ghost use Rattle.std.specs.Prelude.{◌≡◌, true, ◌≤◌, pos, nat_abs, ◌*ℤ◌};
ghost use Rattle.signed.specs.Range.{inside};
ghost use Rattle.lists.specs.Block.{sample};
ghost use Rattle.taps.specs.Interp.{clip, taps4, taps2, Taps};

// The larger of x and 0, and then the smaller of that and m: two steps that the processor has for four numbers at once.
pub fn clipped(x: i32, m: i32) -> i32
    requires { inside (pos 4095) m ≡ true }
    ensures { result ≡ clip m x }
{
    let y = minmax::select(x < 0, 0, x);
    minmax::select(m < y, m, y)
}

// A tap times an entry. Both are told as what they are, numbers of 16 binary digits, whose products the processor has at less cost.
fn product(f: i32, a: i32) -> i32
    requires { (nat_abs f ≤ 128) × (inside (pos 4095) a ≡ true) }
    ensures { result ≡ f *ℤ a }
{
    f as i16 as i32 * (a & 4095)
}

fn four(f0: i32, f1: i32, f2: i32, f3: i32, a: i32, b: i32, c: i32, d: i32) -> i32
    requires taps { Taps f0 f1 f2 f3 }
    requires a_value { (inside (pos 4095) a ≡ true) × (inside (pos 4095) b ≡ true) × (inside (pos 4095) c ≡ true) × (inside (pos 4095) d ≡ true) }
    ensures { result ≡ taps4 f0 f1 f2 f3 a b c d }
{
    (product(f0, a) + product(f1, b) + product(f2, c) + product(f3, d) + 64) >> 7
}

fn two(g: i32, f: i32, a: i32, b: i32) -> i32
    requires { (nat_abs g ≤ 32) × (nat_abs f ≤ 32) × (inside (pos 4095) a ≡ true) × (inside (pos 4095) b ≡ true) }
    ensures { result ≡ taps2 g f a b }
{
    (product(g, a) + product(f, b) + 16) >> 5
}

// A sample of luma, from four entries.
pub fn luma_sample(
    f0: i32,
    f1: i32,
    f2: i32,
    f3: i32,
    a: i32,
    b: i32,
    c: i32,
    d: i32,
    m: i32,
) -> f32
    requires taps { Taps f0 f1 f2 f3 × (inside (pos 4095) m ≡ true) }
    requires a_value { (inside (pos 4095) a ≡ true) × (inside (pos 4095) b ≡ true) × (inside (pos 4095) c ≡ true) × (inside (pos 4095) d ≡ true) }
    ensures { result ≡ sample (clip m (taps4 f0 f1 f2 f3 a b c d)) }
{
    clipped(four(f0, f1, f2, f3, a, b, c, d), m) as f32
}

// A sample of chroma, from two entries.
pub fn chroma_sample(g: i32, f: i32, a: i32, b: i32, m: i32) -> f32
    requires g_bound { (nat_abs g ≤ 32) × (nat_abs f ≤ 32) × (inside (pos 4095) a ≡ true) × (inside (pos 4095) b ≡ true) }
    requires m_value { inside (pos 4095) m ≡ true }
    ensures { result ≡ sample (clip m (taps2 g f a b)) }
{
    clipped(two(g, f, a, b), m) as f32
}
