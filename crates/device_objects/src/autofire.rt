//! The list of an autofire coil, what it is at first, what it can answer, and when two are the same.

ghost use Rattle.std.specs.Prelude.{◌≡◌, ◌↔◌, IsTrue, map};
ghost use Rattle.device_objects.specs.Autofire.{first_state, of_autofire};

use crate::answers::{Outcomes, of_switch, silent};
use crate::state::AutofireState;
use plan_tables::Act;

/// The list of an autofire coil that fires.
pub const FIRE_LIST: u16 = 0;

/// The state of an autofire coil at first.
#[inline]
pub fn first_autofire() -> AutofireState
    ensures { result ≡ first_state }
{
    AutofireState { enabled: false }
}

pub(crate) fn of_autofire(act: Act) -> Outcomes
    ensures { map (λ o. o.items) result.items ≡ of_autofire act }
{
    match act {
        Act::SwitchOn(switch) => of_switch(switch, FIRE_LIST),
        _ => silent(),
    }
}

pub(crate) fn is_same_autofire(a: &AutofireState, b: &AutofireState) -> bool
    ensures { IsTrue result ↔ (a.now ≡ b.now) }
{
    a.enabled == b.enabled
}
