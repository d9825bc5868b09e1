// Rows of the system of three unknowns, and the two steps of elimination on them: a row divided by its pivot, and a row less a multiple of another
// (document 01, Colour parameters).
ghost use Rattle.std.specs.Prelude.{◌≡◌, ℕ, ◌+◌, ◌≤◌, ◌^◌, nat_abs};
ghost use Rattle.fixed_product.specs.Product.{ilog2};
ghost use Rattle.reciprocal.specs.Division.{scale_of};
ghost use Rattle.elimination.specs.Rows.{pivot, unit, reduced, row, unit_row, reduced_row, unit_pair, reduced_pair, RowIn, PairIn};

use fixed_product::product;
use reciprocal::Reciprocal;

// What a row of the system has after its first two columns: column 2 and the right side.
#[derive(Clone, Copy)]
pub struct Pair {
    pub z: i32,
    pub t: i32,
}

// A row of the system after its pivot: column 1, and what follows.
#[derive(Clone, Copy)]
pub struct Row {
    pub y: i32,
    pub rest: Pair,
}

// A pivot p, with the reciprocal of |p|, or of 1 for 0.
#[derive(Clone, Copy)]
pub struct Pivot {
    p: i32,
    inverse: Reciprocal,
    ghost scale: { inverse.scale ≡ scale_of (pivot p) },
    ghost shift: { inverse.shift ≡ ilog2 (pivot p) },
}

// v less f times u.
pub fn reduced(v: i32, f: i32, u: i32) -> i32
    requires { nat_abs v ≤ 2 ^ 30 + 2 ^ 28 }
    ensures { (result ≡ reduced v f u) × (nat_abs result ≤ nat_abs v + 2 ^ 29) }
{
    v - product::mul_fixed32_adapt(f, u, 16)
}

impl Pair {
    // Less f times another.
    pub fn less(self, f: i32, u: Pair) -> Pair
        requires { PairIn (2 ^ 30 + 2 ^ 28) self }
        ensures { (result ≡ reduced_pair self f u) × ((m : ℕ) → PairIn m self → PairIn (m + 2 ^ 29) result) }
    {
        Pair {
            z: reduced(self.z, f, u.z),
            t: reduced(self.t, f, u.t),
        }
    }
}

impl Row {
    // A row of these numbers.
    pub fn of(y: i32, z: i32, t: i32) -> Row
        ensures { result ≡ row y z t }
    {
        Row {
            y,
            rest: Pair { z, t },
        }
    }

    // Less f times another.
    pub fn less(self, f: i32, u: Row) -> Row
        requires { RowIn (2 ^ 22 + 32) self }
        ensures { (result ≡ reduced_row self f u) × RowIn (2 ^ 22 + 32 + 2 ^ 29) result }
    {
        Row {
            y: reduced(self.y, f, u.y),
            rest: self.rest.less(f, u.rest),
        }
    }
}

impl Pivot {
    pub fn of(p: i32) -> Pivot
        ensures { result.p ≡ p }
    {
        Pivot {
            p,
            inverse: reciprocal::division_scale_shift(p.unsigned_abs().max(1)),
        }
    }

    // v divided by it.
    pub fn unit(self, v: i32) -> i32
        ensures { (result ≡ unit self.p v) × (nat_abs result ≤ 2 ^ 29) }
    {
        let r = self.inverse;
        product::mul_fixed32_adapt(v, r.scale, r.shift)
    }

    // Two numbers divided by it.
    pub fn unit_pair(self, r: Pair) -> Pair
        ensures { (result ≡ unit_pair self.p r) × PairIn (2 ^ 29) result }
    {
        Pair {
            z: self.unit(r.z),
            t: self.unit(r.t),
        }
    }

    // A row divided by it.
    pub fn unit_row(self, r: Row) -> Row
        ensures { (result ≡ unit_row self.p r) × RowIn (2 ^ 29) result }
    {
        Row {
            y: self.unit(r.y),
            rest: self.unit_pair(r.rest),
        }
    }
}
