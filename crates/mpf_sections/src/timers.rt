//! The entries of `timers`, by the names of their settings.

ghost use Rattle.std.specs.Prelude.{◌≡◌};
ghost use Rattle.mpf_sections.specs.Typed.{action_of, end_from, interval_from};
ghost use Rattle.mpf_sections.specs.TypedOf.{IsTimerOf, IsControlOf};

use crate::typed::HandledAt;
use crate::values::{
    direction, event_in, field, flag, integer_at, limit, maps_at, milliseconds, number_field,
    word_field,
};
use crate::words::ControlAction;
use machine_settings::{Direction, TimerSettings};
use section_tables::rows::Entry;
use setting_values::values::{Fields, Name};

/// An event that controls a timer.
#[derive(Clone, Copy)]
pub struct ControlEvent<'a> {
    pub event: HandledAt<'a>,
    pub action: ControlAction,
    /// What `Add` adds, `Subtract` subtracts and `Jump` jumps to: 0 by default.
    pub value: i64,
}

/// An entry of `timers`.
#[derive(Clone, Copy)]
pub struct TimerEntry<'a> {
    pub name: &'a Name,
    /// If no end is written, a timer that goes down completes at 0, and one that goes up never.
    pub settings: TimerSettings,
    /// The events that control it, each to be read with [`as_control`].
    pub controls: &'a [Fields],
}

// The places of the settings in the section's table.
const START_VALUE: usize = 0;

const END_VALUE: usize = 1;

const DIRECTION: usize = 2;

const TICK_INTERVAL: usize = 3;

const START_RUNNING: usize = 4;

const RESTART_ON_COMPLETE: usize = 5;

const CONTROL_EVENTS: usize = 6;

// Those of the fields of a control.
const EVENT: usize = 0;

const ACTION: usize = 1;

const VALUE: usize = 2;

const STOP: &[u8] = b"stop";

const PAUSE: &[u8] = b"pause";

const RESET: &[u8] = b"reset";

const RESTART: &[u8] = b"restart";

const ADD: &[u8] = b"add";

const SUBTRACT: &[u8] = b"subtract";

const JUMP: &[u8] = b"jump";

// What a word does with a timer.
fn action_of(word: &[u8]) -> ControlAction
    ensures { result ≡ action_of word.now }
{
    if word == STOP {
        return ControlAction::Stop;
    }
    if word == PAUSE {
        return ControlAction::Pause;
    }
    if word == RESET {
        return ControlAction::Reset;
    }
    if word == RESTART {
        return ControlAction::Restart;
    }
    if word == ADD {
        return ControlAction::Add;
    }
    if word == SUBTRACT {
        return ControlAction::Subtract;
    }
    if word == JUMP {
        return ControlAction::Jump;
    }
    ControlAction::Start
}

// Where a timer ends that has this end written, or none.
fn end_from(direction: Direction, end: Option<i64>) -> Option<i64>
    ensures { result ≡ end_from direction end }
{
    match (direction, end) {
        (_, Some(end)) => Some(end),
        (Direction::Up, None) => None,
        (Direction::Down, None) => Some(0),
    }
}

// At least a millisecond.
fn interval_from(ms: u32) -> u32
    ensures { result ≡ interval_from ms }
{
    if ms == 0 {
        return 1;
    }
    ms
}

/// A map of `control_events`, by the names of its fields; none if it has no event, as no map has
/// that is read.
#[tactic(auto, unfolding(crate::specs::Typed::control_of))]
pub fn as_control(map: &Fields) -> Option<ControlEvent<'_>>
    ensures { IsControlOf map.now result }
{
    let values = map.values.as_slice();
    let event = event_in(field(values, EVENT))?;
    Some(ControlEvent {
        event,
        action: action_of(word_field(values, ACTION)),
        value: number_field(values, VALUE),
    })
}

/// An entry of `timers`, by the names of its settings.
#[tactic(auto, unfolding(crate::specs::Typed::timer_of))]
pub fn as_timer(entry: &Entry) -> TimerEntry<'_>
    ensures { IsTimerOf entry.now result }
{
    let direction = direction(entry, DIRECTION);
    TimerEntry {
        name: &entry.name,
        settings: TimerSettings {
            start: integer_at(entry, START_VALUE),
            end: end_from(direction, limit(entry, END_VALUE)),
            direction,
            interval: interval_from(milliseconds(entry, TICK_INTERVAL)),
            start_running: flag(entry, START_RUNNING),
            restart: flag(entry, RESTART_ON_COMPLETE),
        },
        controls: maps_at(entry, CONTROL_EVENTS),
    }
}
