//! What a ball save is at first, what it can answer, its shape, and when two are the same.

ghost use Rattle.std.specs.Prelude.{◌≡◌, ◌↔◌, IsTrue, map};
ghost use Rattle.device_objects.specs.BallSave.{HasSaveShape, first_state, of_save, of_save_act};

use crate::answers::{Outcomes, none, silent, with, with_if};
use crate::device::Call;
use crate::state::SaveState;
use machine_settings::SaveSettings;
use plan_tables::{Act, SAVE_DISABLED, SAVE_ENABLED, SAVE_SAVING};

/// The state of a ball save at first.
#[inline]
pub fn first_save() -> SaveState
    ensures { result ≡ first_state }
{
    SaveState {
        active: false,
        balls_left: 0,
        due: None,
    }
}

fn of_save_act(save: &SaveSettings, act: Act) -> Outcomes
    ensures { map (λ o. o.items) result.items ≡ of_save_act save.now act }
{
    match act {
        Act::Enable => with(silent(), &[SAVE_ENABLED]),
        Act::Disable => with(silent(), &[SAVE_DISABLED]),
        Act::Save => {
            let goes_on = with_if(silent(), 1 < save.balls, &[SAVE_SAVING]);
            with(goes_on, &[SAVE_SAVING, SAVE_DISABLED])
        }
        _ => silent(),
    }
}

pub(crate) fn of_save(save: &SaveSettings, call: Call) -> Outcomes
    ensures { map (λ o. o.items) result.items ≡ of_save save.now call }
{
    match call {
        Call::ModeStart | Call::ModeStop => silent(),
        Call::Fire => with_if(none(), save.active_time > 0, &[SAVE_DISABLED]),
        Call::Act(act) => of_save_act(save, act),
    }
}

/// Whether the state is of the shape that the ball save asks for.
pub(crate) fn is_of_save(save: &SaveSettings, state: &SaveState) -> bool
    ensures { IsTrue result ↔ HasSaveShape save.now state.now }
{
    state.balls_left <= save.balls
        && (state.due.is_none() || (state.active && save.active_time > 0))
}

pub(crate) fn are_same_save_settings(a: &SaveSettings, b: &SaveSettings) -> bool
    ensures { IsTrue result ↔ (a.now ≡ b.now) }
{
    *a == *b
}

pub(crate) fn is_same_save_state(a: &SaveState, b: &SaveState) -> bool
    ensures { IsTrue result ↔ (a.now ≡ b.now) }
{
    a.active == b.active && a.balls_left == b.balls_left && a.due == b.due
}
