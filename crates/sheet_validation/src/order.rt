// The order of no-go boxes (document 02, paper 2): two boxes of a sheet's value compared side by side, and the test that each is
// greater than the one before. The definitions are in sheet_spec/specs/Order.
ghost use Rattle.std.specs.Prelude.{◌≡◌, ◌+◌, ◌≤◌, ◌<◌};
ghost use Rattle.sheet_spec.specs.Limits.{max_boxes};
ghost use Rattle.sheet_spec.specs.Slots.{N, box_size, slots, box_at};
ghost use Rattle.sheet_spec.specs.Order.{compare_boxes};
ghost use Rattle.sheet_spec.specs.Refusals.{refusal_of};
ghost use Rattle.sheet_spec.specs.File.{order_test};

use sheet_spec::Vars;
use sheet_spec::refusals::Refusal;
use sheet_spec::slots::*;
use std::cmp::Ordering;

// The boxes at two slots: first lower side, first upper side, second lower side and so on.
fn compare_boxes(v: &[i32; SLOTS], n: Vars, a: usize, b: usize) -> Ordering
    requires { (a + box_size ≤ slots) × (b + box_size ≤ slots) }
    ensures { result ≡ compare_boxes n (box_at v.now a) (box_at v.now b) }
{
    for i in 0..n.count() {
        let lower = v[a + i].cmp(&v[b + i]);
        let upper = v[a + i + N].cmp(&v[b + i + N]);
        let sides = lower.then(upper);
        if sides.is_ne() {
            return sides;
        }
    }
    Ordering::Equal
}

// No-go box j is greater than the one before, if there is one.
pub fn bad_order(v: &[i32; SLOTS], n: Vars, j: usize) -> Result<(), Refusal>
    requires { j < max_boxes }
    ensures { refusal_of result ≡ order_test n v.now j }
{
    if j == 0 {
        return Ok(());
    }
    let slot = FIRST_UNSAFE + j * BOX_SIZE;
    if compare_boxes(v, n, slot - BOX_SIZE, slot).is_lt() {
        return Ok(());
    }
    Err(Refusal::Order)
}
