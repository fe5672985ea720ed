//! An autofire coil that counts its shots.

ghost use Rattle.std.specs.Prelude.{◌≡◌, ◌≢◌, ◌↔◌, ◌+◌, ◌-◌, ◌^◌, [], min, IsSome, IfSome};
ghost use Rattle.device_objects.specs.Autofire.{act_step};
ghost use Rattle.plan_tables.specs.declared.devices.Settings.TheVariants as kinds;

use device_objects::autofire::FIRE_LIST;
use device_objects::outcome::one_list;
use device_objects::{AutofireState, Device, DeviceState, Outcome, World};
use plan_tables::{Act, DeviceRow, Settings};
use std::cell::Cell;
use std::rc::Rc;

/// An autofire coil that does what `coil_rules::Autofire` does, and counts how often it fires. So one
/// knows when its coil is worn out.
#[derive(Drop)]
pub struct CountedAutofire {
    row: DeviceRow,
    state: AutofireState,
    /// Shared with those who read the count while a rig has the device.
    shots: Rc<Cell<u64>>,
    ghost kind: { row.settings ≡ kinds.Autofire },
}

impl CountedAutofire {
    ghost use Rattle.example_rig.specs.Kind.{AreOfAutofire};

    /// The autofire coil of a row, in this state of that row. None exactly if they are of another kind.
    pub fn resume(row: &DeviceRow, state: &DeviceState, shots: Rc<Cell<u64>>) -> Option<Self>
        ensures kind { IsSome result ↔ AreOfAutofire row.now.settings state.now }
        ensures row { IfSome result (λ d. ⟦<CountedAutofire as Device>⟧.row_of d ≡ row.now) }
        ensures state { IfSome result (λ d. ⟦<CountedAutofire as Device>⟧.state_of d ≡ state.now) }
    {
        match (row.settings, *state) {
            (Settings::Autofire, DeviceState::Autofire(state)) => Some(CountedAutofire {
                row: *row,
                state,
                shots,
            }),
            _ => None,
        }
    }
}

impl Device for CountedAutofire {
    ghost use Rattle.device_objects.specs.declared.state.DeviceState.TheVariants as states;

    ghost row_of = { λ d. d.row };

    ghost state_of = { λ d. states.Autofire d.state };

    fn row(&self) -> DeviceRow {
        self.row
    }

    fn state(&self) -> DeviceState {
        DeviceState::Autofire(self.state)
    }

    fn due(&self) -> Option<u64> {
        None
    }

    fn start(&mut self, _now: u64, _world: World) -> Outcome {
        Outcome::new()
    }

    fn stop(&mut self, _now: u64, _world: World) -> Outcome {
        Outcome::new()
    }

    /// Never comes: nothing of an autofire coil is due.
    fn fire(&mut self, _now: u64, _world: World) -> Outcome
        ensures same { self.new ≡ self.old }
        ensures outcome { result.items ≡ [] }
    {
        Outcome::new()
    }

    fn act(&mut self, act: Act, _now: u64, _world: World) -> Outcome {
        let lists = step(&mut self.state, act);
        self.shots.set(count_after(self.shots.get(), &lists));
        lists
    }
}

/// What an act does to an autofire coil.
fn step(state: &mut AutofireState, act: Act) -> Outcome
    ensures state { state.new ≡ (act_step act state.old).0 }
    ensures outcome { result.items ≡ (act_step act state.old).1 }
{
    match act {
        Act::Enable => state.enabled = true,
        Act::Disable => state.enabled = false,
        Act::SwitchOn(0) if state.enabled => return one_list(FIRE_LIST),
        _ => {}
    }
    Outcome::new()
}

/// How many shots there were after this outcome of an act: a coil fires exactly if lists are to be run.
fn count_after(before: u64, outcome: &Outcome) -> u64
    ensures none { outcome.now.items ≡ [] → result ≡ before }
    ensures one { outcome.now.items ≢ [] → result ≡ min (before + 1) (2 ^ 64 - 1) }
{
    before.saturating_add(u64::from(!outcome.is_empty()))
}
