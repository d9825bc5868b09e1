// The steps of a sample of smooth, smooth_v and smooth_h (document 01, The predictors), in natural numbers. A remainder that changes nothing (`% 4096`, `% 128`, `% 64`) tells the compiler how few digits a
// factor has, so that four products are one instruction.
#![tactic(auto)]

ghost use Rattle.std.specs.Prelude.{◌≡◌, true, ◌+◌, ◌-◌, ◌*◌, ◌/◌, ◌^◌, ◌≤◌, ◌<◌, pos, nat_abs};
ghost use Rattle.signed.specs.Range.{inside};
ghost use Rattle.lists.specs.Block.{sample};
ghost use Rattle.smooth_steps.specs.Parts.{part, weighed, mean, Step};

// An edge entry, which is not negative.
pub fn natural(x: i32) -> u32
    requires { inside (pos 4095) x ≡ true }
    ensures { result ≡ nat_abs x }
{
    x as u32
}

// w parts of t and the rest, by 2^k.
fn ramp(t: u32, w: u32, rest: u32, k: u32) -> u32
    requires { (t ≤ 4095) × (w ≤ 64) × (rest ≤ 270000) × (k ≤ 6) }
    ensures { result ≡ (t * w + rest) / 2 ^ k }
{
    ((t % 4096) * (w % 128) + rest) >> k
}

// From p to t by v parts of 64.
pub fn weigh(p: u32, t: u32, v: u32) -> u32
    requires { (p ≤ 4095) × (t ≤ 4095) × (v < 64) }
    ensures { result ≡ part 64 p t v }
{
    let parts = v % 64;
    ((t % 4096) * parts + (p % 4096) * (64 - parts) + 32) >> 6
}

// From e to the entry x by w parts of m, where rest is what is added to each product.
pub fn ramp_to(x: i32, e: u32, w: u32, m: u32, k: u32, rest: u32) -> u32
    requires { (inside (pos 4095) x ≡ true) × Step e w m k × (rest ≡ e * (m - w) + m / 2) }
    ensures { result ≡ part m e (nat_abs x) w }
{
    ramp(natural(x), w, rest, k)
}

// The same, and from there to x by v parts of 64.
pub fn smooth_to(x: i32, e: u32, w: u32, m: u32, k: u32, rest: u32, v: u32) -> u32
    requires { (inside (pos 4095) x ≡ true) × Step e w m k × (rest ≡ e * (m - w) + m / 2) × (v < 64) }
    ensures { result ≡ weighed m e (nat_abs x) w v }
{
    weigh(ramp_to(x, e, w, m, k, rest), natural(x), v)
}

// The mean of two, rounded up.
pub fn mean_of(a: u32, b: u32) -> u32
    requires { (a ≤ 4095) × (b ≤ 4095) }
    ensures { result ≡ mean a b }
{
    (a + b + 1) >> 1
}

// A natural number as a sample.
pub fn to_sample(n: u32) -> f32
    requires { n ≤ 4095 }
    ensures { result ≡ sample (pos n) }
{
    (n as i32) as f32
}

// From the end e to t by w parts of m = 2^k, and from there to t by v parts of 64, as a sample.
pub fn smooth_sample(t: u32, e: u32, w: u32, m: u32, k: u32, v: u32) -> f32
    requires { Step e w m k × (t ≤ 4095) × (v < 64) }
    ensures { result ≡ sample (pos (weighed m e t w v)) }
{
    let rest = e * (m - w) + m / 2;
    to_sample(weigh(ramp(t, w, rest, k), t, v))
}

// The same to an entry of an edge.
pub fn entry_sample(x: i32, e: u32, w: u32, m: u32, k: u32, v: u32) -> f32
    requires { Step e w m k × (inside (pos 4095) x ≡ true) × (v < 64) }
    ensures { result ≡ sample (pos (weighed m e (nat_abs x) w v)) }
{
    smooth_sample(natural(x), e, w, m, k, v)
}
