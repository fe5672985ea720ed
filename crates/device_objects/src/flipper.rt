//! The lists of a flipper, what it is at first, what it can answer, and when two are the same.

ghost use Rattle.std.specs.Prelude.{◌≡◌, ◌↔◌, IsTrue, map};
ghost use Rattle.device_objects.specs.Flipper.{first_state, of_flipper};

use crate::answers::{Outcomes, of_switch, silent, with};
use crate::state::FlipperState;
use plan_tables::Act;

/// The list of a flipper that goes on.
pub const ON_LIST: u16 = 0;
/// The list of a flipper that goes off.
pub const OFF_LIST: u16 = 1;

/// The state of a flipper at first.
#[inline]
pub fn first_flipper() -> FlipperState
    ensures { result ≡ first_state }
{
    FlipperState {
        enabled: false,
        on: false,
    }
}

pub(crate) fn of_flipper(act: Act) -> Outcomes
    ensures { map (λ o. o.items) result.items ≡ of_flipper act }
{
    match act {
        Act::Disable => with(silent(), &[OFF_LIST]),
        Act::SwitchOn(switch) => of_switch(switch, ON_LIST),
        Act::SwitchOff(switch) => of_switch(switch, OFF_LIST),
        _ => silent(),
    }
}

pub(crate) fn is_same_flipper(a: &FlipperState, b: &FlipperState) -> bool
    ensures { IsTrue result ↔ (a.now ≡ b.now) }
{
    a.enabled == b.enabled && a.on == b.on
}
