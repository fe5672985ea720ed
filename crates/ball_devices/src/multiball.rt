//! A multiball.

ghost use Rattle.std.specs.Prelude.{◌≡◌};
ghost use Rattle.device_objects.specs.Multiball.{act_step, end, start};
ghost use Rattle.plan_tables.specs.declared.devices.Settings.TheVariants as kinds;

use crate::ejects::answer;
use device_objects::multiball::first_multiball;
use device_objects::{Device, DeviceState, MultiballState, Outcome, World};
use machine_settings::MultiballSettings;
use plan_tables::{Act, DeviceRow, MULTIBALL_ENDED, MULTIBALL_STARTED, Settings};

/// A multiball. It can start while a ball is in play, and ends when it is told to: when only one is left.
#[derive(Drop)]
pub struct Multiball {
    row: DeviceRow,
    settings: MultiballSettings,
    state: MultiballState,
    ghost kind: { row.settings ≡ kinds.Multiball settings },
}

impl Multiball {
    ghost use Rattle.std.specs.Prelude.{◌≡◌, ◌↔◌, IsSome, IfSome};
    ghost use Rattle.device_objects.specs.DeviceStep.{first_state};
    ghost use Rattle.ball_devices.specs.Kind.{IsMultiball};

    /// The multiball of a row, in its first state. None exactly if the row is of another kind.
    pub fn new(row: &DeviceRow) -> Option<Self>
        ensures kind { IsSome result ↔ IsMultiball row.now.settings }
        ensures row { IfSome result (λ d. ⟦<Multiball as Device>⟧.row_of d ≡ row.now) }
        ensures first { IfSome result (λ d. ⟦<Multiball as Device>⟧.state_of d ≡ first_state row.now.settings) }
    {
        match row.settings {
            Settings::Multiball(settings) => Some(Multiball {
                row: *row,
                settings,
                state: first_multiball(),
            }),
            _ => None,
        }
    }
}

impl Device for Multiball {
    ghost use Rattle.std.specs.Prelude.{◌≡◌, []};
    ghost use Rattle.device_objects.specs.declared.state.DeviceState.TheVariants as states;

    ghost row_of = { λ d. d.row };

    ghost state_of = { λ d. states.Multiball d.state };

    fn row(&self) -> DeviceRow {
        self.row
    }

    fn state(&self) -> DeviceState {
        DeviceState::Multiball(self.state)
    }

    fn due(&self) -> Option<u64> {
        None
    }

    fn start(&mut self, _now: u64, _world: World) -> Outcome {
        self.state.running = false;
        Outcome::new()
    }

    fn stop(&mut self, _now: u64, _world: World) -> Outcome {
        self.state.running = false;
        Outcome::new()
    }

    /// Never comes: nothing of a multiball is due.
    fn fire(&mut self, _now: u64, _world: World) -> Outcome
        ensures same { self.new ≡ self.old }
        ensures outcome { result.items ≡ [] }
    {
        Outcome::new()
    }

    fn act(&mut self, act: Act, _now: u64, world: World) -> Outcome {
        step(&mut self.state, act, world)
    }
}

/// It starts, if it is not running and a ball is in play.
fn start(state: &mut MultiballState, world: World) -> Outcome
    ensures state { state.new ≡ (start world state.old).0 }
    ensures lists { result.items ≡ (start world state.old).1 }
{
    if state.running || world.in_play == 0 {
        return Outcome::new();
    }
    state.running = true;
    answer(&[MULTIBALL_STARTED])
}

/// It ends, if it is running.
fn end(state: &mut MultiballState) -> Outcome
    ensures state { state.new ≡ (end state.old).0 }
    ensures lists { result.items ≡ (end state.old).1 }
{
    if !state.running {
        return Outcome::new();
    }
    state.running = false;
    answer(&[MULTIBALL_ENDED])
}

/// What an act does.
fn step(state: &mut MultiballState, act: Act, world: World) -> Outcome
    ensures state { state.new ≡ (act_step act world state.old).0 }
    ensures lists { result.items ≡ (act_step act world state.old).1 }
{
    match act {
        Act::Start => start(state, world),
        Act::End => end(state),
        _ => Outcome::new(),
    }
}
