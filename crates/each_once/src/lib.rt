// An order by itself: refusal 22, "the order does not hold each job's index once" (document 01), and whether it is the plan's own.
#![tactic(auto)]

ghost use Rattle.std.specs.Prelude.{◌≡◌, false, ◌≤◌, length, replicate};
ghost use Rattle.reorder.specs.Check.{once_b};
ghost use Rattle.each_once.specs.PlanOrder.{is_plan_order};

// The entries one after the other; `seen` holds which numbers stood before.
fn once_with(order: &[u16], seen: &mut [bool]) -> bool
    requires { (length order.now ≤ 1024) × (seen.old ≡ replicate 1024 false) }
    ensures { result ≡ once_b (length order.now) order.now }
{
    let n = order.len();
    for &entry in order {
        let x = entry as usize;
        if n <= x || seen[x] {
            return false;
        }
        seen[x] = true;
    }
    true
}

// Whether the order holds each number below its length once.
pub fn once(order: &[u16]) -> bool
    requires { length order.now ≤ 1024 }
    ensures { result ≡ once_b (length order.now) order.now }
{
    let mut seen = [false; 1024];
    once_with(order, &mut seen)
}

// Whether the order is the plan's own, entry k being k: it is accepted whatever the jobs are (proofs/InPlace).
pub fn is_plan_order(order: &[u16]) -> bool
    ensures { result ≡ is_plan_order order.now }
{
    order
        .iter()
        .enumerate()
        .all(|(k, &entry)| entry as usize == k)
}
