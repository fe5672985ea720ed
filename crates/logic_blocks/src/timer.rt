//! A timer.

ghost use Rattle.std.specs.Prelude.{◌≡◌, ◌<◌, ◌^◌, if◌then◌else◌, [], ◌∷◌};
ghost use Rattle.device_objects.specs.Values.{clamp_value};
ghost use Rattle.device_objects.specs.Timer.{is_running, run, halt, complete_timer, after_change, act_step, timer_step};
ghost use Rattle.plan_tables.specs.declared.devices.Act.TheVariants as acts;
ghost use Rattle.device_objects.specs.declared.device.Call.TheVariants as calls;
ghost use Rattle.plan_tables.specs.declared.devices.Settings.TheVariants as kinds;

use device_objects::outcome::one_list;
use device_objects::timer::{
    COMPLETE_LIST, PAUSE_LIST, START_LIST, STOP_LIST, TICK_LIST, first_timer,
};
use device_objects::values::{clamp_value, move_value};
use device_objects::{Device, DeviceState, Outcome, TimerState, World};
use machine_settings::TimerSettings;
use plan_tables::{Act, DeviceRow, Settings};

/// A timer: while it runs its value goes on by one at each tick, and it completes at its end.
#[derive(Drop)]
pub struct Timer {
    row: DeviceRow,
    settings: TimerSettings,
    state: TimerState,
    ghost kind: { row.settings ≡ kinds.Timer settings },
}

impl Timer {
    ghost use Rattle.std.specs.Prelude.{◌≡◌, ◌↔◌, IsSome, IfSome};
    ghost use Rattle.device_objects.specs.DeviceStep.{first_state};
    ghost use Rattle.logic_blocks.specs.Kind.{IsTimer};

    /// The timer of a row, in its first state. None exactly if the row is of another kind.
    pub fn new(row: &DeviceRow) -> Option<Self>
        ensures kind { IsSome result ↔ IsTimer row.now.settings }
        ensures row { IfSome result (λ d. ⟦<Timer as Device>⟧.row_of d ≡ row.now) }
        ensures first { IfSome result (λ d. ⟦<Timer as Device>⟧.state_of d ≡ first_state row.now.settings) }
    {
        match row.settings {
            Settings::Timer(settings) => Some(Timer {
                row: *row,
                settings,
                state: first_timer(&settings),
            }),
            _ => None,
        }
    }
}

impl Device for Timer {
    ghost use Rattle.device_objects.specs.declared.state.DeviceState.TheVariants as states;

    ghost row_of = { λ d. d.row };

    ghost state_of = { λ d. states.Timer d.state };

    fn row(&self) -> DeviceRow {
        self.row
    }

    fn state(&self) -> DeviceState {
        DeviceState::Timer(self.state)
    }

    fn due(&self) -> Option<u64> {
        self.state.due
    }

    fn start(&mut self, now: u64, _world: World) -> Outcome {
        self.state.value = self.settings.start;
        if !self.settings.start_running {
            return Outcome::new();
        }
        run(&self.settings, &mut self.state, now);
        one_list(START_LIST)
    }

    fn stop(&mut self, _now: u64, _world: World) -> Outcome {
        self.state.due = None;
        Outcome::new()
    }

    fn fire(&mut self, now: u64, _world: World) -> Outcome {
        tick(&self.settings, &mut self.state, now)
    }

    fn act(&mut self, act: Act, now: u64, _world: World) -> Outcome {
        step(&self.settings, &mut self.state, act, now)
    }
}

/// The timer runs from now on.
fn run(settings: &TimerSettings, state: &mut TimerState, now: u64)
    requires { now < 2 ^ 40 }
    ensures { state.new ≡ run settings.now now state.old }
{
    state.due = Some(now + u64::from(settings.interval));
}

/// The timer completes.
fn complete(settings: &TimerSettings, state: &mut TimerState, now: u64) -> Outcome
    requires { now < 2 ^ 40 }
    ensures state { state.new ≡ (complete_timer settings.now now state.old).0 }
    ensures outcome { result.items ≡ (complete_timer settings.now now state.old).1 }
{
    let mut lists = one_list(COMPLETE_LIST);
    if settings.restart {
        state.value = settings.start;
        run(settings, state, now);
        lists.push(START_LIST);
    } else {
        state.due = None;
    }
    lists
}

/// The value was changed: a timer that runs completes if it is at its end now.
fn change(settings: &TimerSettings, state: &mut TimerState, value: i128, now: u64) -> Outcome
    requires { now < 2 ^ 40 }
    ensures state { state.new ≡ (after_change settings.now now (record state.old { value = clamp_value value })).0 }
    ensures outcome { result.items ≡ (after_change settings.now now
        (record state.old { value = clamp_value value })).1 }
{
    state.value = clamp_value(value);
    if state.due.is_some() && settings.direction.is_at_end(settings.end, state.value) {
        complete(settings, state, now)
    } else {
        Outcome::new()
    }
}

/// The next tick.
fn tick(settings: &TimerSettings, state: &mut TimerState, now: u64) -> Outcome
    requires { now < 2 ^ 40 }
    ensures state { state.new ≡ (timer_step settings.now calls.Fire now state.old).0 }
    ensures outcome { result.items ≡ (timer_step settings.now calls.Fire now state.old).1 }
{
    state.value = move_value(settings.direction, 1, state.value);
    let mut lists = one_list(TICK_LIST);
    if settings.direction.is_at_end(settings.end, state.value) {
        lists.push(COMPLETE_LIST);
        complete(settings, state, now);
        if settings.restart {
            lists.push(START_LIST);
        }
    } else {
        run(settings, state, now);
    }
    lists
}

/// The timer starts to run, if it does not run.
fn start(settings: &TimerSettings, state: &mut TimerState, now: u64) -> Outcome
    requires { now < 2 ^ 40 }
    ensures state { state.new ≡ (act_step settings.now acts.Start now state.old).0 }
    ensures outcome { result.items ≡ (act_step settings.now acts.Start now state.old).1 }
{
    if state.due.is_some() {
        return Outcome::new();
    }
    run(settings, state, now);
    one_list(START_LIST)
}

/// The timer stops running, if it runs, and this list is answered.
fn halt(state: &mut TimerState, list: u16) -> Outcome
    ensures state { state.new ≡ halt state.old }
    ensures outcome { result.items ≡ if is_running state.old then list ∷ [] else [] }
{
    let runs = state.due.is_some();
    state.due = None;
    if runs { one_list(list) } else { Outcome::new() }
}

/// What an act does to a timer.
fn step(settings: &TimerSettings, state: &mut TimerState, act: Act, now: u64) -> Outcome
    requires { now < 2 ^ 40 }
    ensures state { state.new ≡ (act_step settings.now act now state.old).0 }
    ensures outcome { result.items ≡ (act_step settings.now act now state.old).1 }
{
    match act {
        Act::Start => start(settings, state, now),
        Act::Stop => halt(state, STOP_LIST),
        Act::Pause => halt(state, PAUSE_LIST),
        Act::Reset => {
            state.value = settings.start;
            Outcome::new()
        }
        Act::Restart => {
            state.value = settings.start;
            run(settings, state, now);
            one_list(START_LIST)
        }
        Act::Add(n) => change(
            settings,
            state,
            i128::from(state.value) + i128::from(n),
            now,
        ),
        Act::Subtract(n) => change(
            settings,
            state,
            i128::from(state.value) - i128::from(n),
            now,
        ),
        Act::Jump(n) => change(settings, state, i128::from(n), now),
        _ => Outcome::new(),
    }
}
