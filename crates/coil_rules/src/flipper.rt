//! A flipper.

ghost use Rattle.std.specs.Prelude.{◌≡◌};
ghost use Rattle.device_objects.specs.Flipper.{raise, lower, act_step};
ghost use Rattle.plan_tables.specs.declared.devices.Settings.TheVariants as kinds;

use device_objects::flipper::{OFF_LIST, ON_LIST, first_flipper};
use device_objects::outcome::one_list;
use device_objects::{Device, DeviceState, FlipperState, Outcome, World};
use plan_tables::{Act, DeviceRow, Settings};

/// A flipper: while it is enabled, its switch turns it on. It goes off when its switch becomes inactive,
/// and when it is disabled.
#[derive(Drop)]
pub struct Flipper {
    row: DeviceRow,
    state: FlipperState,
    ghost kind: { row.settings ≡ kinds.Flipper },
}

impl Flipper {
    ghost use Rattle.std.specs.Prelude.{◌≡◌, ◌↔◌, IsSome, IfSome};
    ghost use Rattle.device_objects.specs.DeviceStep.{first_state};
    ghost use Rattle.coil_rules.specs.Kind.{IsFlipper};

    /// The flipper of a row, in its first state. None exactly if the row is of another kind.
    pub fn new(row: &DeviceRow) -> Option<Self>
        ensures kind { IsSome result ↔ IsFlipper row.now.settings }
        ensures row { IfSome result (λ d. ⟦<Flipper as Device>⟧.row_of d ≡ row.now) }
        ensures first { IfSome result (λ d. ⟦<Flipper as Device>⟧.state_of d ≡ first_state row.now.settings) }
    {
        match row.settings {
            Settings::Flipper => Some(Flipper {
                row: *row,
                state: first_flipper(),
            }),
            _ => None,
        }
    }
}

impl Device for Flipper {
    ghost use Rattle.std.specs.Prelude.{◌≡◌, []};
    ghost use Rattle.device_objects.specs.declared.state.DeviceState.TheVariants as states;

    ghost row_of = { λ d. d.row };

    ghost state_of = { λ d. states.Flipper d.state };

    fn row(&self) -> DeviceRow {
        self.row
    }

    fn state(&self) -> DeviceState {
        DeviceState::Flipper(self.state)
    }

    fn due(&self) -> Option<u64> {
        None
    }

    fn start(&mut self, _now: u64, _world: World) -> Outcome {
        Outcome::new()
    }

    fn stop(&mut self, _now: u64, _world: World) -> Outcome {
        Outcome::new()
    }

    /// Never comes: nothing of a flipper is due.
    fn fire(&mut self, _now: u64, _world: World) -> Outcome
        ensures same { self.new ≡ self.old }
        ensures outcome { result.items ≡ [] }
    {
        Outcome::new()
    }

    fn act(&mut self, act: Act, _now: u64, _world: World) -> Outcome {
        step(&mut self.state, act)
    }
}

/// The flipper goes on, if this holds.
fn raise(state: &mut FlipperState, holds: bool) -> Outcome
    ensures state { state.new ≡ (raise holds state.old).0 }
    ensures outcome { result.items ≡ (raise holds state.old).1 }
{
    if !holds {
        return Outcome::new();
    }
    state.on = true;
    one_list(ON_LIST)
}

/// The flipper goes off, if this holds.
fn lower(state: &mut FlipperState, holds: bool) -> Outcome
    ensures state { state.new ≡ (lower holds state.old).0 }
    ensures outcome { result.items ≡ (lower holds state.old).1 }
{
    if !holds {
        return Outcome::new();
    }
    state.on = false;
    one_list(OFF_LIST)
}

/// What an act does to a flipper.
fn step(state: &mut FlipperState, act: Act) -> Outcome
    ensures state { state.new ≡ (act_step act state.old).0 }
    ensures outcome { result.items ≡ (act_step act state.old).1 }
{
    match act {
        Act::Enable => {
            state.enabled = true;
            Outcome::new()
        }
        Act::Disable => {
            state.enabled = false;
            lower(state, state.on)
        }
        Act::SwitchOn(switch) => raise(state, state.enabled && switch == 0),
        Act::SwitchOff(switch) => lower(state, state.on && switch == 0),
        _ => Outcome::new(),
    }
}
