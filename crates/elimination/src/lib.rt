// Three unknowns from nine sums, `gauss_elimination` and `gauss_back_substitute` of mhccp.rs (document 01, Colour parameters). Rows are structs by
// value.
#![tactic(auto)]

mod rows;

ghost use Rattle.std.specs.Prelude.{◌≡◌, ◌*◌, ◌≤◌, ◌^◌, pos, nat_abs};
ghost use Rattle.elimination.specs.Rows.{RowIn, PairIn};
ghost use Rattle.numbers.specs.Depth.{bits_of};
ghost use Rattle.elimination.specs.Elimination.{SumsIn, ParamsIn, regular, backward, solved};

use crate::rows::{Pair, Pivot, Row};
use numbers::depth::Depth;

// The nine sums: the upper half of a symmetric matrix, and the right side.
#[derive(Clone, Copy)]
pub struct Sums {
    pub a00: i32,
    pub a01: i32,
    pub a02: i32,
    pub a11: i32,
    pub a12: i32,
    pub a22: i32,
    pub y0: i32,
    pub y1: i32,
    pub y2: i32,
}

// The three unknowns: the colour parameters.
#[derive(Clone, Copy)]
pub struct Params {
    pub x0: i32,
    pub x1: i32,
    pub x2: i32,
}

// Back substitution, from the last unknown.
fn backward(u: Row, v: Pair, x2: i32) -> Params
    requires { RowIn (2 ^ 29) u × PairIn (2 ^ 29) v × (nat_abs x2 ≤ 2 ^ 29) }
    ensures { (result ≡ backward u v x2) × ParamsIn (3 * 2 ^ 29) result }
{
    let x1 = rows::reduced(v.t, v.z, x2);
    let x0 = rows::reduced(rows::reduced(u.rest.t, u.y, x1), u.rest.z, x2);
    Params { x0, x1, x2 }
}

// What goes onto the diagonal.
pub fn regulariser(depth: Depth) -> i32
    ensures { (result ≡ pos (regular (bits_of depth))) × (nat_abs result ≤ 32) }
{
    match depth {
        Depth::Eight => 2,
        Depth::Ten => 8,
        Depth::Twelve => 32,
    }
}

// Three unknowns from the nine sums, by elimination with the regulariser `reg` on the diagonal.
pub fn gauss_elimination(s: Sums, reg: i32) -> Params
    requires { SumsIn (2 ^ 22) s × (nat_abs reg ≤ 32) }
    ensures { (result ≡ solved s reg) × ParamsIn (3 * 2 ^ 29) result }
{
    let u = Pivot::of(s.a00 + reg).unit_row(Row::of(s.a01, s.a02, s.y0));
    let r = Row::of(s.a11 + reg, s.a12, s.y1).less(s.a01, u);
    let q = Row::of(s.a12, s.a22 + reg, s.y2).less(s.a02, u);
    let v = Pivot::of(r.y).unit_pair(r.rest);
    let w = q.rest.less(q.y, v);
    backward(u, v, Pivot::of(w.z).unit(w.t))
}
