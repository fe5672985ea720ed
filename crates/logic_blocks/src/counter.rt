//! A counter.

ghost use Rattle.std.specs.Prelude.{◌≡◌, ◌<◌, ◌^◌};
ghost use Rattle.device_objects.specs.Counter.{is_early, after_completion, count_hit, slot_step};
ghost use Rattle.plan_tables.specs.declared.devices.Act.TheVariants as acts;
ghost use Rattle.plan_tables.specs.declared.devices.Settings.TheVariants as kinds;

use crate::lists::{hit, reset};
use device_objects::values::move_value;
use device_objects::{CounterSlot, DeviceState, Outcome};
use machine_settings::CounterSettings;
use plan_tables::{Act, DeviceRow, Settings};
use slotted_devices::{SlotDevice, SlotKind};

/// A counter: it counts hits, and completes when its value reaches or passes the one that is set.
pub type Counter = SlotDevice<CounterKind>;

/// The kind of [`Counter`]: its row and its settings.
#[derive(Clone, Copy)]
pub struct CounterKind {
    row: DeviceRow,
    settings: CounterSettings,
    ghost kind: { row.settings ≡ kinds.Counter settings },
}

impl SlotKind for CounterKind {
    ghost use Rattle.device_objects.specs.Counter.{slots};
    ghost use Rattle.device_objects.specs.declared.state.DeviceState.TheVariants as states;
    ghost use Rattle.logic_blocks.specs.{Kind.IsCounter, Steps.counter_steps};

    type Slot = CounterSlot;

    type SlotView = CounterSlot;

    ghost IsOfKind = { IsCounter };

    ghost row_of = { λ k. k.row };

    ghost state_of = { states.Counter };

    ghost model = { λ k. slots k.settings };

    ghost slot_view = { λ slot. slot };

    ghost steps = { λ k. counter_steps k.row.settings k.settings k.kind };

    fn of_row(row: &DeviceRow) -> Option<Self> {
        match row.settings {
            Settings::Counter(settings) => Some(CounterKind {
                row: *row,
                settings,
            }),
            _ => None,
        }
    }

    fn row(&self) -> DeviceRow {
        self.row
    }

    fn state(slots: &[CounterSlot; 4]) -> DeviceState {
        DeviceState::Counter(*slots)
    }

    fn persists(&self) -> bool {
        self.settings.block.persist
    }

    fn first_slot(&self, game: u64) -> CounterSlot {
        CounterSlot {
            game,
            enabled: self.settings.block.enabled,
            value: self.settings.start,
            last_hit: None,
        }
    }

    fn game(&self, slot: &CounterSlot) -> u64 {
        slot.game
    }

    fn step(&self, slot: &mut CounterSlot, act: Act, now: u64) -> Outcome {
        match act {
            Act::Count => count(&self.settings, slot, now),
            Act::Enable => {
                slot.enabled = true;
                Outcome::new()
            }
            Act::Disable => {
                slot.enabled = false;
                Outcome::new()
            }
            Act::Reset => {
                slot.value = self.settings.start;
                reset()
            }
            Act::Restart => {
                slot.value = self.settings.start;
                slot.enabled = true;
                reset()
            }
            _ => Outcome::new(),
        }
    }
}

/// Whether a hit comes too early after the last one.
fn is_early(window: u32, last_hit: Option<u64>, now: u64) -> bool
    requires { now < 2 ^ 40 }
    ensures { result ≡ is_early window last_hit now }
{
    match last_hit {
        None => false,
        Some(last) => now < last.saturating_add(u64::from(window)),
    }
}

/// A hit was counted: the counter completes, or goes on.
fn count_hit(settings: &CounterSettings, slot: &mut CounterSlot) -> Outcome
    ensures slot { slot.new ≡ (count_hit settings.now slot.old).0 }
    ensures outcome { result.items ≡ (count_hit settings.now slot.old).1 }
{
    let completes = settings.direction.is_at_end(settings.complete, slot.value);
    if completes {
        complete(settings, slot);
    }
    hit(completes)
}

/// The counter completes.
fn complete(settings: &CounterSettings, slot: &mut CounterSlot)
    ensures { slot.new ≡ after_completion settings.now slot.old }
{
    if settings.block.disable_on_complete {
        slot.enabled = false;
    }
    if settings.block.reset_on_complete {
        slot.value = settings.start;
    }
}

/// A hit.
fn count(settings: &CounterSettings, slot: &mut CounterSlot, now: u64) -> Outcome
    requires { now < 2 ^ 40 }
    ensures slot { slot.new ≡ (slot_step settings.now acts.Count now slot.old).0 }
    ensures outcome { result.items ≡ (slot_step settings.now acts.Count now slot.old).1 }
{
    if !slot.enabled || is_early(settings.window, slot.last_hit, now) {
        return Outcome::new();
    }
    slot.value = move_value(settings.direction, settings.interval, slot.value);
    slot.last_hit = Some(now);
    count_hit(settings, slot)
}
