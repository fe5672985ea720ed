//! The lists of a timer, what it is at first, what it can answer, and when two are the same.

ghost use Rattle.std.specs.Prelude.{◌≡◌, ◌≤◌, ◌↔◌, IsTrue, length, map};
ghost use Rattle.device_objects.specs.declared.device.Call.TheVariants as calls;
ghost use Rattle.device_objects.specs.Timer.{first_state, of_change, of_timer, of_timer_act, timer_completing};

use crate::answers::{Outcomes, none, silent, with, with_if};
use crate::device::Call;
use crate::same::are_same_directions;
use crate::state::TimerState;
use crate::values::clamp_value;
use machine_settings::TimerSettings;
use plan_tables::Act;

/// The list of a timer that starts to run.
pub const START_LIST: u16 = 0;
/// The list of a timer that is stopped.
pub const STOP_LIST: u16 = 1;
/// The list of a timer that is paused.
pub const PAUSE_LIST: u16 = 2;
/// The list of a tick.
pub const TICK_LIST: u16 = 3;
/// The list of a timer that completes.
pub const COMPLETE_LIST: u16 = 4;

/// The state of a timer at first.
#[inline]
pub fn first_timer(timer: &TimerSettings) -> TimerState
    ensures { result ≡ first_state timer.now }
{
    TimerState {
        value: timer.start,
        due: None,
    }
}

/// A timer that completes.
fn timer_completing(timer: &TimerSettings) -> &'static [u16]
    ensures lists { result.now ≡ timer_completing timer.now }
    ensures short { length result.now ≤ 2 }
{
    if timer.restart {
        &[COMPLETE_LIST, START_LIST]
    } else {
        &[COMPLETE_LIST]
    }
}

/// A timer whose value moves by any number.
fn of_change(timer: &TimerSettings) -> Outcomes
    ensures { map (λ o. o.items) result.items ≡ of_change timer.now }
{
    with_if(silent(), timer.end.is_some(), timer_completing(timer))
}

fn of_timer_act(timer: &TimerSettings, act: Act) -> Outcomes
    ensures { map (λ o. o.items) result.items ≡ of_timer_act timer.now act }
{
    match act {
        Act::Start => with(silent(), &[START_LIST]),
        Act::Stop => with(silent(), &[STOP_LIST]),
        Act::Pause => with(silent(), &[PAUSE_LIST]),
        Act::Restart => with(none(), &[START_LIST]),
        Act::Add(_) | Act::Subtract(_) => of_change(timer),
        Act::Jump(n) => {
            let ends = timer
                .direction
                .is_at_end(timer.end, clamp_value(i128::from(n)));
            with_if(silent(), ends, timer_completing(timer))
        }
        _ => silent(),
    }
}

/// A tick after which a timer goes on, and one that completes it.
fn of_tick(timer: &TimerSettings) -> Outcomes
    ensures { map (λ o. o.items) result.items ≡ of_timer timer.now calls.Fire }
{
    let goes_on = with(none(), &[TICK_LIST]);
    let completes: &'static [u16] = if timer.restart {
        &[TICK_LIST, COMPLETE_LIST, START_LIST]
    } else {
        &[TICK_LIST, COMPLETE_LIST]
    };
    with_if(goes_on, timer.end.is_some(), completes)
}

pub(crate) fn of_timer(timer: &TimerSettings, call: Call) -> Outcomes
    ensures { map (λ o. o.items) result.items ≡ of_timer timer.now call }
{
    match call {
        Call::ModeStart if timer.start_running => with(none(), &[START_LIST]),
        Call::ModeStart | Call::ModeStop => silent(),
        Call::Fire => of_tick(timer),
        Call::Act(act) => of_timer_act(timer, act),
    }
}

pub(crate) fn are_same_timer_settings(a: &TimerSettings, b: &TimerSettings) -> bool
    ensures { IsTrue result ↔ (a.now ≡ b.now) }
{
    a.start == b.start
        && a.end == b.end
        && are_same_directions(a.direction, b.direction)
        && a.interval == b.interval
        && a.start_running == b.start_running
        && a.restart == b.restart
}

pub(crate) fn is_same_timer(a: &TimerState, b: &TimerState) -> bool
    ensures { IsTrue result ↔ (a.now ≡ b.now) }
{
    a.value == b.value && a.due == b.due
}
