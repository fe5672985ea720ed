//! What a multiball is at first, what it can answer, and when two are the same.

ghost use Rattle.std.specs.Prelude.{◌≡◌, ◌↔◌, IsTrue, map};
ghost use Rattle.device_objects.specs.Multiball.{first_state, of_multiball};

use crate::answers::{Outcomes, silent, with};
use crate::state::MultiballState;
use machine_settings::MultiballSettings;
use plan_tables::{Act, MULTIBALL_ENDED, MULTIBALL_STARTED};

/// The state of a multiball at first.
#[inline]
pub fn first_multiball() -> MultiballState
    ensures { result ≡ first_state }
{
    MultiballState { running: false }
}

pub(crate) fn of_multiball(act: Act) -> Outcomes
    ensures { map (λ o. o.items) result.items ≡ of_multiball act }
{
    match act {
        Act::Start => with(silent(), &[MULTIBALL_STARTED]),
        Act::End => with(silent(), &[MULTIBALL_ENDED]),
        _ => silent(),
    }
}

pub(crate) fn are_same_multiball_settings(a: &MultiballSettings, b: &MultiballSettings) -> bool
    ensures { IsTrue result ↔ (a.now ≡ b.now) }
{
    *a == *b
}

pub(crate) fn is_same_multiball_state(a: &MultiballState, b: &MultiballState) -> bool
    ensures { IsTrue result ↔ (a.now ≡ b.now) }
{
    a.running == b.running
}
