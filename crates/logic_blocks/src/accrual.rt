//! An accrual.

ghost use Rattle.std.specs.Prelude.{◌≡◌};
ghost use Rattle.std.specs.List.{list_all};
ghost use Rattle.device_objects.specs.Accrual.{is_step_open, are_all_done, after_completion, step_once, slot_step};
ghost use Rattle.plan_tables.specs.declared.devices.Act.TheVariants as acts;
ghost use Rattle.plan_tables.specs.declared.devices.Settings.TheVariants as kinds;

use crate::lists::{hit, reset};
use device_objects::{AccrualSlot, DeviceState, Outcome};
use machine_settings::StepSettings;
use plan_tables::{Act, DeviceRow, Settings};
use slotted_devices::{SlotDevice, SlotKind};

/// An accrual: it completes when all its steps are done, in any order.
pub type Accrual = SlotDevice<AccrualKind>;

/// The kind of [`Accrual`]: its row and its settings.
#[derive(Clone, Copy)]
pub struct AccrualKind {
    row: DeviceRow,
    settings: StepSettings,
    ghost kind: { row.settings ≡ kinds.Accrual settings },
}

impl SlotKind for AccrualKind {
    ghost use Rattle.device_objects.specs.Accrual.{slots};
    ghost use Rattle.device_objects.specs.declared.state.DeviceState.TheVariants as states;
    ghost use Rattle.logic_blocks.specs.{Kind.IsAccrual, Steps.accrual_steps};

    type Slot = AccrualSlot;

    type SlotView = AccrualSlot;

    ghost IsOfKind = { IsAccrual };

    ghost row_of = { λ k. k.row };

    ghost state_of = { states.Accrual };

    ghost model = { λ k. slots k.settings };

    ghost slot_view = { λ slot. slot };

    ghost steps = { λ k. accrual_steps k.row.settings k.settings k.kind };

    fn of_row(row: &DeviceRow) -> Option<Self> {
        match row.settings {
            Settings::Accrual(settings) => Some(AccrualKind {
                row: *row,
                settings,
            }),
            _ => None,
        }
    }

    fn row(&self) -> DeviceRow {
        self.row
    }

    fn state(slots: &[AccrualSlot; 4]) -> DeviceState {
        DeviceState::Accrual(*slots)
    }

    fn persists(&self) -> bool {
        self.settings.block.persist
    }

    fn first_slot(&self, game: u64) -> AccrualSlot {
        AccrualSlot {
            game,
            enabled: self.settings.block.enabled,
            done: [false; 16],
        }
    }

    fn game(&self, slot: &AccrualSlot) -> u64 {
        slot.game
    }

    fn step(&self, slot: &mut AccrualSlot, act: Act, _now: u64) -> Outcome {
        match act {
            Act::Step(i) => take_step(&self.settings, slot, i),
            Act::Enable => {
                slot.enabled = true;
                Outcome::new()
            }
            Act::Disable => {
                slot.enabled = false;
                Outcome::new()
            }
            Act::Reset => {
                slot.done = [false; 16];
                reset()
            }
            Act::Restart => {
                slot.done = [false; 16];
                slot.enabled = true;
                reset()
            }
            _ => Outcome::new(),
        }
    }
}

/// Whether there is such a step, and it is not done yet.
fn is_step_open(settings: &StepSettings, i: usize, done: &[bool; 16]) -> bool
    ensures { result ≡ is_step_open settings.now i done.now }
{
    i < settings.steps && i < 16 && !done[i]
}

/// Whether all these steps are done.
fn are_set(done: &[bool]) -> bool
    ensures { result ≡ list_all (λ d. d) done.now }
{
    done.iter().all(|d| *d)
}

/// Whether all steps are done.
fn are_all_done(settings: &StepSettings, done: &[bool; 16]) -> bool
    ensures { result ≡ are_all_done settings.now done.now }
{
    are_set(&done[..settings.steps.min(16)])
}

/// A step was done: the accrual completes, or goes on.
fn step_once(settings: &StepSettings, slot: &mut AccrualSlot) -> Outcome
    ensures slot { slot.new ≡ (step_once settings.now slot.old).0 }
    ensures outcome { result.items ≡ (step_once settings.now slot.old).1 }
{
    let completes = are_all_done(settings, &slot.done);
    if completes {
        complete(settings, slot);
    }
    hit(completes)
}

/// The accrual completes.
fn complete(settings: &StepSettings, slot: &mut AccrualSlot)
    ensures { slot.new ≡ after_completion settings.now slot.old }
{
    if settings.block.disable_on_complete {
        slot.enabled = false;
    }
    if settings.block.reset_on_complete {
        slot.done = [false; 16];
    }
}

/// A step of this number.
fn take_step(settings: &StepSettings, slot: &mut AccrualSlot, i: usize) -> Outcome
    ensures slot { slot.new ≡ (slot_step settings.now (acts.Step i) slot.old).0 }
    ensures outcome { result.items ≡ (slot_step settings.now (acts.Step i) slot.old).1 }
{
    if !slot.enabled || !is_step_open(settings, i, &slot.done) {
        return Outcome::new();
    }
    slot.done[i] = true;
    step_once(settings, slot)
}
