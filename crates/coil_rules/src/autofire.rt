//! An autofire coil.

ghost use Rattle.std.specs.Prelude.{◌≡◌};
ghost use Rattle.device_objects.specs.Autofire.{act_step};
ghost use Rattle.plan_tables.specs.declared.devices.Settings.TheVariants as kinds;

use device_objects::autofire::{FIRE_LIST, first_autofire};
use device_objects::outcome::one_list;
use device_objects::{AutofireState, Device, DeviceState, Outcome, World};
use plan_tables::{Act, DeviceRow, Settings};

/// An autofire coil, as a slingshot or a pop bumper has it: while it is enabled its switch fires it.
#[derive(Drop)]
pub struct Autofire {
    row: DeviceRow,
    state: AutofireState,
    ghost kind: { row.settings ≡ kinds.Autofire },
}

impl Autofire {
    ghost use Rattle.std.specs.Prelude.{◌≡◌, ◌↔◌, IsSome, IfSome};
    ghost use Rattle.device_objects.specs.DeviceStep.{first_state};
    ghost use Rattle.coil_rules.specs.Kind.{IsAutofire};

    /// The autofire coil of a row, in its first state. None exactly if the row is of another kind.
    pub fn new(row: &DeviceRow) -> Option<Self>
        ensures kind { IsSome result ↔ IsAutofire row.now.settings }
        ensures row { IfSome result (λ d. ⟦<Autofire as Device>⟧.row_of d ≡ row.now) }
        ensures first { IfSome result (λ d. ⟦<Autofire as Device>⟧.state_of d ≡ first_state row.now.settings) }
    {
        match row.settings {
            Settings::Autofire => Some(Autofire {
                row: *row,
                state: first_autofire(),
            }),
            _ => None,
        }
    }
}

impl Device for Autofire {
    ghost use Rattle.std.specs.Prelude.{◌≡◌, []};
    ghost use Rattle.device_objects.specs.declared.state.DeviceState.TheVariants as states;

    ghost row_of = { λ d. d.row };

    ghost state_of = { λ d. states.Autofire d.state };

    fn row(&self) -> DeviceRow {
        self.row
    }

    fn state(&self) -> DeviceState {
        DeviceState::Autofire(self.state)
    }

    fn due(&self) -> Option<u64> {
        None
    }

    fn start(&mut self, _now: u64, _world: World) -> Outcome {
        Outcome::new()
    }

    fn stop(&mut self, _now: u64, _world: World) -> Outcome {
        Outcome::new()
    }

    /// Never comes: nothing of an autofire coil is due.
    fn fire(&mut self, _now: u64, _world: World) -> Outcome
        ensures same { self.new ≡ self.old }
        ensures outcome { result.items ≡ [] }
    {
        Outcome::new()
    }

    fn act(&mut self, act: Act, _now: u64, _world: World) -> Outcome {
        step(&mut self.state, act)
    }
}

/// What an act does to an autofire coil.
fn step(state: &mut AutofireState, act: Act) -> Outcome
    ensures state { state.new ≡ (act_step act state.old).0 }
    ensures outcome { result.items ≡ (act_step act state.old).1 }
{
    match act {
        Act::Enable => {
            state.enabled = true;
            Outcome::new()
        }
        Act::Disable => {
            state.enabled = false;
            Outcome::new()
        }
        Act::SwitchOn(switch) if state.enabled && switch == 0 => one_list(FIRE_LIST),
        _ => Outcome::new(),
    }
}
