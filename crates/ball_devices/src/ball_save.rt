//! A ball save.

ghost use Rattle.std.specs.Prelude.{◌≡◌, ◌<◌, ◌^◌};
ghost use Rattle.device_objects.specs.BallSave.{act_step, disable, enable, end_of, save, save_ball};
ghost use Rattle.plan_tables.specs.declared.devices.Settings.TheVariants as kinds;

use crate::ejects::answer;
use device_objects::ball_save::first_save;
use device_objects::{Device, DeviceState, Outcome, SaveState, World};
use machine_settings::SaveSettings;
use plan_tables::{Act, DeviceRow, SAVE_DISABLED, SAVE_ENABLED, SAVE_SAVING, Settings};

/// A ball save. While it is active it saves balls that drain. It ends when it has saved as many as its
/// settings say, when its time is over, or when it is disabled.
#[derive(Drop)]
pub struct BallSave {
    row: DeviceRow,
    settings: SaveSettings,
    state: SaveState,
    ghost kind: { row.settings ≡ kinds.BallSave settings },
}

impl BallSave {
    ghost use Rattle.std.specs.Prelude.{◌≡◌, ◌↔◌, IsSome, IfSome};
    ghost use Rattle.device_objects.specs.DeviceStep.{first_state};
    ghost use Rattle.ball_devices.specs.Kind.{IsBallSave};

    /// The ball save of a row, in its first state. None exactly if the row is of another kind.
    pub fn new(row: &DeviceRow) -> Option<Self>
        ensures kind { IsSome result ↔ IsBallSave row.now.settings }
        ensures row { IfSome result (λ d. ⟦<BallSave as Device>⟧.row_of d ≡ row.now) }
        ensures first { IfSome result (λ d. ⟦<BallSave as Device>⟧.state_of d ≡ first_state row.now.settings) }
    {
        match row.settings {
            Settings::BallSave(settings) => Some(BallSave {
                row: *row,
                settings,
                state: first_save(),
            }),
            _ => None,
        }
    }
}

impl Device for BallSave {
    ghost use Rattle.device_objects.specs.declared.state.DeviceState.TheVariants as states;

    ghost row_of = { λ d. d.row };

    ghost state_of = { λ d. states.BallSave d.state };

    fn row(&self) -> DeviceRow {
        self.row
    }

    fn state(&self) -> DeviceState {
        DeviceState::BallSave(self.state)
    }

    fn due(&self) -> Option<u64> {
        self.state.due
    }

    fn start(&mut self, _now: u64, _world: World) -> Outcome {
        self.state = first_save();
        Outcome::new()
    }

    fn stop(&mut self, _now: u64, _world: World) -> Outcome {
        self.state = first_save();
        Outcome::new()
    }

    fn fire(&mut self, _now: u64, _world: World) -> Outcome {
        disable(&mut self.state)
    }

    fn act(&mut self, act: Act, now: u64, _world: World) -> Outcome {
        step(&self.settings, &mut self.state, act, now)
    }
}

/// The moment at which it ends by itself, if it is enabled now.
fn end_of(settings: &SaveSettings, now: u64) -> Option<u64>
    requires { now < 2 ^ 40 }
    ensures { result ≡ end_of settings.now now }
{
    if settings.active_time == 0 {
        None
    } else {
        Some(now + u64::from(settings.active_time))
    }
}

/// It is active from now on, and has all its balls left to save.
fn enable(settings: &SaveSettings, state: &mut SaveState, now: u64) -> Outcome
    requires { now < 2 ^ 40 }
    ensures state { state.new ≡ (enable settings.now now state.old).0 }
    ensures lists { result.items ≡ (enable settings.now now state.old).1 }
{
    if state.active {
        return Outcome::new();
    }
    state.active = true;
    state.balls_left = settings.balls;
    state.due = end_of(settings, now);
    answer(&[SAVE_ENABLED])
}

/// It is active no more.
fn disable(state: &mut SaveState) -> Outcome
    ensures state { state.new ≡ (disable state.old).0 }
    ensures lists { result.items ≡ (disable state.old).1 }
{
    if !state.active {
        return Outcome::new();
    }
    state.active = false;
    state.due = None;
    answer(&[SAVE_DISABLED])
}

/// It has saved a ball: after the last one it is active no more.
fn save_ball(state: &mut SaveState) -> Outcome
    ensures state { state.new ≡ (save_ball state.old).0 }
    ensures lists { result.items ≡ (save_ball state.old).1 }
{
    if state.balls_left > 0 {
        return answer(&[SAVE_SAVING]);
    }
    state.active = false;
    state.due = None;
    answer(&[SAVE_SAVING, SAVE_DISABLED])
}

/// It saves a ball, if it is active.
fn save(state: &mut SaveState) -> Outcome
    ensures state { state.new ≡ (save state.old).0 }
    ensures lists { result.items ≡ (save state.old).1 }
{
    if !state.active {
        return Outcome::new();
    }
    state.balls_left = state.balls_left.saturating_sub(1);
    save_ball(state)
}

/// What an act does.
fn step(settings: &SaveSettings, state: &mut SaveState, act: Act, now: u64) -> Outcome
    requires { now < 2 ^ 40 }
    ensures state { state.new ≡ (act_step settings.now act now state.old).0 }
    ensures lists { result.items ≡ (act_step settings.now act now state.old).1 }
{
    match act {
        Act::Enable => enable(settings, state, now),
        Act::Disable => disable(state),
        Act::Save => save(state),
        _ => Outcome::new(),
    }
}
