// Refusal 23 of a tower's plan: "the order turns a clashing pair round" (document 01, Refusal numbers; document 02, request (v)).
ghost use Rattle.std.specs.Prelude.{◌≡◌, pos, replicate};
ghost use Rattle.tower_order.specs.Rules.{is_tower_kept};
ghost use Rattle.tower_order.specs.Tables.{TowerWalk};

use crate::fill;

// The table is filled, and the order held against it.
fn kept_with(
    width: usize,
    height: usize,
    n: usize,
    plan: &[u16],
    order: &[u16],
    table: &mut [i16],
) -> bool
    requires { TowerWalk width height plan.now order.now × (table.old ≡ replicate 24576 (pos 0)) }
    ensures { result ≡ is_tower_kept width height n plan.now order.now }
{
    fill::fill(width, height, n, plan, order.len(), table);
    rect_order::kept::kept(table, order)
}

// Whether the order puts each clashing pair as the plan has it.
pub fn kept(width: usize, height: usize, n: usize, plan: &[u16], order: &[u16]) -> bool
    requires { TowerWalk width height plan.now order.now }
    ensures { result ≡ is_tower_kept width height n plan.now order.now }
{
    let mut table = [0i16; 24576];
    kept_with(width, height, n, plan, order, &mut table)
}
