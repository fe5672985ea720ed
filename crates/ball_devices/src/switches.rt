//! The ball switches of a device.

ghost use Rattle.std.specs.Prelude.{◌≡◌, ◌<◌, ◌^◌, length, option_map, slice_index_or, slice_set, IfSome};
ghost use Rattle.plan_tables.specs.Due.{sooner};
ghost use Rattle.device_objects.specs.BallDevice.{delay, due_of, earlier, empty, first_due, first_due_from, has_ball};
ghost use Rattle.device_objects.specs.BallDevice.{note_level, switch_level, timeout_of, turn_over};

use device_objects::{BallState, BallSwitch, Eject};
use plan_tables::BallSettings;

/// A moment, and the number of a ball switch that is due then.
pub(crate) type Due = (u64, usize);

/// Whether a ball lies in the device.
pub(crate) fn has_ball(state: &BallState) -> bool
    ensures { result ≡ has_ball state.now }
{
    state.switches.iter().any(|switch| switch.counted)
}

/// The earlier of two moments, each with the number of its ball switch; of equal ones the first argument.
fn sooner(a: Option<Due>, b: Option<Due>) -> Option<Due>
    ensures { result ≡ sooner a b }
{
    match (a, b) {
        (None, _) => b,
        (_, None) => a,
        (Some(one), Some(other)) => if one.0 <= other.0 { a } else { b },
    }
}

/// The moment at which a ball switch is due, with its number, if it is due.
fn due_with(number: usize, due: Option<u64>) -> Option<Due>
    ensures { result ≡ option_map (λ moment. (moment, number)) due }
{
    let moment = due?;
    Some((moment, number))
}

/// The one of these ball switches that is due first, and the moment.
fn first_of(switches: &[BallSwitch]) -> Option<Due>
    ensures first { result ≡ first_due_from 0 switches.now }
    ensures within { IfSome result (λ due. due.1 < length switches.now) }
{
    let mut first = None;
    for (number, switch) in switches.iter().enumerate() {
        first = sooner(first, due_with(number, switch.due));
    }
    first
}

/// The ball switch that is due first, and the moment.
pub(crate) fn first_due(state: &BallState) -> Option<Due>
    ensures first { result ≡ first_due state.now }
    ensures within { IfSome result (λ due. due.1 < 16) }
{
    first_of(&state.switches)
}

/// The moment at which the attempt to eject is over, if there is one.
pub(crate) fn timeout_of(eject: &Eject) -> Option<u64>
    ensures { result ≡ timeout_of eject.now }
{
    match eject {
        Eject::Idle => None,
        Eject::Pulsing(attempt) | Eject::Away(attempt) => Some(attempt.timeout),
    }
}

/// The first of two moments.
fn earlier(a: Option<u64>, b: Option<u64>) -> Option<u64>
    ensures { result ≡ earlier a b }
{
    match (a, b) {
        (None, _) => b,
        (_, None) => a,
        (Some(one), Some(other)) => Some(one.min(other)),
    }
}

/// The moment of a ball switch that is due.
fn moment_of(first: Option<Due>) -> Option<u64>
    ensures { result ≡ option_map (λ a. a.0) first }
{
    let due = first?;
    Some(due.0)
}

/// The moment at which the device is due.
pub(crate) fn due_of(state: &BallState) -> Option<u64>
    ensures { result ≡ due_of state.now }
{
    earlier(moment_of(first_due(state)), timeout_of(&state.eject))
}

/// How many milliseconds a ball switch has to be active, or inactive, before the device counts it.
fn delay(settings: &BallSettings, active: bool) -> u32
    ensures { result ≡ delay settings.now active }
{
    if active {
        settings.ejects.entrance_delay
    } else {
        settings.ejects.exit_delay
    }
}

/// A ball switch has become active, or inactive.
fn note_level(settings: &BallSettings, active: bool, now: u64, switch: BallSwitch) -> BallSwitch
    requires { now < 2 ^ 40 }
    ensures { result ≡ note_level settings.now active now switch }
{
    let due = if switch.counted == active {
        None
    } else {
        Some(now + u64::from(delay(settings, active)))
    };
    BallSwitch { due, ..switch }
}

/// The ball switch of this number, if there is one, has become active, or inactive.
fn note(settings: &BallSettings, switches: &mut [BallSwitch], number: usize, active: bool, now: u64)
    requires { now < 2 ^ 40 }
    ensures { switches.new
        ≡ slice_set switches.old number (note_level settings.now active now
        (slice_index_or switches.old number empty)) }
{
    if number < switches.len() {
        switches[number] = note_level(settings, active, now, switches[number]);
    }
}

/// The device's ball switch of this number has become active, or inactive.
pub(crate) fn switch_to(
    settings: &BallSettings,
    state: &mut BallState,
    number: usize,
    active: bool,
    now: u64,
)
    requires { now < 2 ^ 40 }
    ensures { state.new ≡ switch_level settings.now number active now state.old }
{
    if number < usize::from(settings.switches) {
        note(settings, &mut state.switches, number, active, now);
    }
}

/// The opposite is counted at a ball switch from now on.
pub(crate) fn turn_over(switch: BallSwitch) -> BallSwitch
    ensures { result ≡ turn_over switch }
{
    BallSwitch {
        counted: !switch.counted,
        due: None,
    }
}
