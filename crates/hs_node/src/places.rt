ghost use Rattle.std.specs.Prelude.{◌≡◌, ◌↔◌, IsTrue};

use crate::lists::same_slots;
use hs_core::{At, State};

fn same_state(a: &State, b: &State) -> bool
    ensures { IsTrue result ↔ (a.now ≡ b.now) }
{
    a.next == b.next
        && same_slots(a.slots.as_slice(), b.slots.as_slice())
        && a.formula.same(&b.formula)
}

/// Whether both are one state at one point. It takes no memory.
pub fn same_at(a: &At, b: &At) -> bool
    ensures exact { IsTrue result ↔ (a.now ≡ b.now) }
{
    a.method == b.method && a.pair == b.pair && a.point == b.point && same_state(&a.state, &b.state)
}
