//! A ball device.

ghost use Rattle.std.specs.Prelude.{◌≡◌, ◌<◌, ◌^◌, map};
ghost use Rattle.plan_tables.specs.declared.devices.Settings.TheVariants as kinds;
ghost use Rattle.device_objects.specs.BallDevice.{act_step, count, fire, halt};
ghost use Rattle.device_objects.specs.BallDevice.{is_timeout_first, not_due};

use crate::ejects::{answer, begin, confirm, lose_sight, request, time_out};
use crate::switches::{Due, due_of, first_due, switch_to, timeout_of, turn_over};
use device_objects::ball_device::{ENTRY_LIST, first_ball_device};
use device_objects::{BallState, BallSwitch, Device, DeviceState, Eject, Outcome, World};
use plan_tables::{Act, BallSettings, DeviceRow, Settings};

/// A ball device, such as a trough or a plunger. A ball lies at each ball switch that is counted. The
/// device ejects one ball at a time.
#[derive(Drop)]
pub struct BallDevice {
    row: DeviceRow,
    settings: BallSettings,
    state: BallState,
    ghost kind: { row.settings ≡ kinds.BallDevice settings },
}

impl BallDevice {
    ghost use Rattle.std.specs.Prelude.{◌≡◌, ◌↔◌, IsSome, IfSome};
    ghost use Rattle.device_objects.specs.DeviceStep.{first_state};
    ghost use Rattle.ball_devices.specs.Kind.{IsBallDevice};

    /// The ball device of a row, in its first state. None exactly if the row is of another kind.
    pub fn new(row: &DeviceRow) -> Option<Self>
        ensures kind { IsSome result ↔ IsBallDevice row.now.settings }
        ensures row { IfSome result (λ d. ⟦<BallDevice as Device>⟧.row_of d ≡ row.now) }
        ensures first { IfSome result (λ d. ⟦<BallDevice as Device>⟧.state_of d ≡ first_state row.now.settings) }
    {
        match row.settings {
            Settings::BallDevice(settings) => Some(BallDevice {
                row: *row,
                settings,
                state: first_ball_device(),
            }),
            _ => None,
        }
    }
}

impl Device for BallDevice {
    ghost use Rattle.std.specs.Prelude.{◌≡◌};
    ghost use Rattle.device_objects.specs.declared.state.DeviceState.TheVariants as states;

    ghost row_of = { λ d. d.row };

    ghost state_of = { λ d. states.BallDevice d.state };

    fn row(&self) -> DeviceRow {
        self.row
    }

    fn state(&self) -> DeviceState {
        DeviceState::BallDevice(self.state)
    }

    fn due(&self) -> Option<u64> {
        due_of(&self.state)
    }

    fn start(&mut self, _now: u64, _world: World) -> Outcome {
        Outcome::new()
    }

    fn stop(&mut self, _now: u64, _world: World) -> Outcome {
        halt(&mut self.state);
        Outcome::new()
    }

    fn fire(&mut self, now: u64, _world: World) -> Outcome {
        fire(&self.settings, &mut self.state, now)
    }

    fn act(&mut self, act: Act, now: u64, _world: World) -> Outcome {
        step(&self.settings, &mut self.state, act, now)
    }
}

/// None of these ball switches is due any more.
fn calm(switches: &mut [BallSwitch])
    ensures { switches.new ≡ map not_due switches.old }
{
    for switch in switches.iter_mut() {
        switch.due = None;
    }
}

/// The device is taken out of the machine: nothing is due any more, and nothing is ejected.
fn halt(state: &mut BallState)
    ensures { state.new ≡ halt state.old }
{
    calm(&mut state.switches);
    state.eject = Eject::Idle;
    state.wanted = 0;
}

/// The level of a ball switch is counted from now on: a ball has entered, or is gone.
fn count(settings: &BallSettings, state: &mut BallState, number: usize, now: u64) -> Outcome
    requires number { number < 16 }
    requires moment { now < 2 ^ 40 }
    ensures state { state.new ≡ (count settings.now now number state.old).0 }
    ensures lists { result.items ≡ (count settings.now now number state.old).1 }
{
    let before = state.switches[number];
    state.switches[number] = turn_over(before);
    if before.counted {
        lose_sight(settings, state, now)
    } else {
        begin(settings, state, now, answer(&[ENTRY_LIST]))
    }
}

/// Whether the attempt is over before the first ball switch is due.
fn is_timeout_first(first: Option<Due>, timeout: Option<u64>) -> bool
    ensures { result ≡ is_timeout_first first timeout }
{
    match (first, timeout) {
        (_, None) => false,
        (None, Some(_)) => true,
        (Some(due), Some(timeout)) => timeout < due.0,
    }
}

/// What is due first is done.
fn fire(settings: &BallSettings, state: &mut BallState, now: u64) -> Outcome
    requires { now < 2 ^ 40 }
    ensures state { state.new ≡ (fire settings.now now state.old).0 }
    ensures lists { result.items ≡ (fire settings.now now state.old).1 }
{
    let first = first_due(state);
    if is_timeout_first(first, timeout_of(&state.eject)) {
        return time_out(settings, state, now);
    }
    match first {
        Some((_, number)) => count(settings, state, number, now),
        None => Outcome::new(),
    }
}

/// What an act does.
fn step(settings: &BallSettings, state: &mut BallState, act: Act, now: u64) -> Outcome
    requires { now < 2 ^ 40 }
    ensures state { state.new ≡ (act_step settings.now act now state.old).0 }
    ensures lists { result.items ≡ (act_step settings.now act now state.old).1 }
{
    match act {
        Act::SwitchOn(number) => switch_to(settings, state, number, true, now),
        Act::SwitchOff(number) => switch_to(settings, state, number, false, now),
        Act::Confirm => return confirm(settings, state, now),
        Act::Request(balls) => return request(settings, state, balls, now),
        _ => {}
    }
    Outcome::new()
}
