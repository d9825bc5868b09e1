// The product at shift 16 by a second factor in 0..4095 (document 01, Colour parameters), for many of them: what both factors drop hangs on how many
// binary digits the second has, so that it is worked out once for each count. Digits are cleared and not shifted out, and one shift serves for all.
#![tactic(auto)]

ghost use Rattle.std.specs.Prelude.{◌≡◌, true, ◌≤◌, pos, length};
ghost use Rattle.signed.specs.Range.{inside};
ghost use Rattle.fixed_product.specs.Product.{mul_fixed};
ghost use Rattle.product_table.specs.Wide.{cleared, mask, kept_product, half_of, WideTable};

use fixed_product::product;

// What rounds a product by a to the nearest, before a shift by 16.
pub fn half(a: i32) -> i32
    ensures { result ≡ half_of a }
{
    if a < 0 { 32767 } else { 32768 }
}

// a without its last s digits.
fn cleared(a: i32, s: u32) -> i64
    requires { s ≤ 7 }
    ensures { result ≡ cleared a s }
{
    let unit: u32 = 1 << s;
    (a >> s) as i64 * unit as i64
}

// Twelve digits, the last s of them 0.
fn mask(s: u32) -> i64
    requires { s ≤ 8 }
    ensures { result ≡ pos (mask s) }
{
    let unit: u32 = 1 << s;
    (4096 - unit) as i64
}

// The table of a: entry z is for second factors that z of twelve digits stand before, and entry 12 + z has the digits that those keep.
pub fn fill(a: i32, table: &mut [i64])
    requires { length table.old ≡ 24 }
    ensures { WideTable a table.new }
{
    let n = product::digits(a);
    for z in 0..12 {
        let need = (n + (12 - z) as u32).saturating_sub(29);
        let s = need / 2;
        table[z] = cleared(a, s);
        table[12 + z] = mask(need - s);
    }
}

// The product of what a, whose table it is, and b keep.
fn kept_product(a: i32, table: &[i64], b: i32) -> i64
    requires { WideTable a table.now × (inside (pos 4095) b ≡ true) }
    ensures { result ≡ kept_product a b }
{
    let n = b as u32;
    let z = (n | 1).leading_zeros() as usize - 20;
    let kept = n & table[12 + z] as u32;
    table[z] * kept as i64
}

// The product of a by b.
pub fn mul_wide(a: i32, table: &[i64], b: i32) -> i32
    requires { WideTable a table.now × (inside (pos 4095) b ≡ true) }
    ensures { result ≡ mul_fixed a b 16 }
{
    ((kept_product(a, table, b) + half(a) as i64) >> 16) as i32
}
