//! A sequence.

ghost use Rattle.std.specs.Prelude.{◌≡◌};
ghost use Rattle.device_objects.specs.Sequence.{after_completion, step_once, slot_step};
ghost use Rattle.plan_tables.specs.declared.devices.Act.TheVariants as acts;
ghost use Rattle.plan_tables.specs.declared.devices.Settings.TheVariants as kinds;

use crate::lists::{hit, reset};
use device_objects::{DeviceState, Outcome, SequenceSlot};
use machine_settings::StepSettings;
use plan_tables::{Act, DeviceRow, Settings};
use slotted_devices::{SlotDevice, SlotKind};

/// A sequence: it completes when all its steps are done, each after the one before.
pub type Sequence = SlotDevice<SequenceKind>;

/// The kind of [`Sequence`]: its row and its settings.
#[derive(Clone, Copy)]
pub struct SequenceKind {
    row: DeviceRow,
    settings: StepSettings,
    ghost kind: { row.settings ≡ kinds.Sequence settings },
}

impl SlotKind for SequenceKind {
    ghost use Rattle.device_objects.specs.Sequence.{slots};
    ghost use Rattle.device_objects.specs.declared.state.DeviceState.TheVariants as states;
    ghost use Rattle.logic_blocks.specs.{Kind.IsSequence, Steps.sequence_steps};

    type Slot = SequenceSlot;

    type SlotView = SequenceSlot;

    ghost IsOfKind = { IsSequence };

    ghost row_of = { λ k. k.row };

    ghost state_of = { states.Sequence };

    ghost model = { λ k. slots k.settings };

    ghost slot_view = { λ slot. slot };

    ghost steps = { λ k. sequence_steps k.row.settings k.settings k.kind };

    fn of_row(row: &DeviceRow) -> Option<Self> {
        match row.settings {
            Settings::Sequence(settings) => Some(SequenceKind {
                row: *row,
                settings,
            }),
            _ => None,
        }
    }

    fn row(&self) -> DeviceRow {
        self.row
    }

    fn state(slots: &[SequenceSlot; 4]) -> DeviceState {
        DeviceState::Sequence(*slots)
    }

    fn persists(&self) -> bool {
        self.settings.block.persist
    }

    fn first_slot(&self, game: u64) -> SequenceSlot {
        SequenceSlot {
            game,
            enabled: self.settings.block.enabled,
            next: 0,
        }
    }

    fn game(&self, slot: &SequenceSlot) -> u64 {
        slot.game
    }

    fn step(&self, slot: &mut SequenceSlot, act: Act, _now: u64) -> Outcome {
        match act {
            Act::Step(i) => take_step(&self.settings, slot, i),
            Act::Enable => {
                slot.enabled = true;
                Outcome::new()
            }
            Act::Disable => {
                slot.enabled = false;
                Outcome::new()
            }
            Act::Reset => {
                slot.next = 0;
                reset()
            }
            Act::Restart => {
                slot.next = 0;
                slot.enabled = true;
                reset()
            }
            _ => Outcome::new(),
        }
    }
}

/// A step was done: the sequence completes, or goes on.
fn step_once(settings: &StepSettings, slot: &mut SequenceSlot) -> Outcome
    ensures slot { slot.new ≡ (step_once settings.now slot.old).0 }
    ensures outcome { result.items ≡ (step_once settings.now slot.old).1 }
{
    let completes = slot.next == settings.steps;
    if completes {
        complete(settings, slot);
    }
    hit(completes)
}

/// The sequence completes.
fn complete(settings: &StepSettings, slot: &mut SequenceSlot)
    ensures { slot.new ≡ after_completion settings.now slot.old }
{
    if settings.block.disable_on_complete {
        slot.enabled = false;
    }
    if settings.block.reset_on_complete {
        slot.next = 0;
    }
}

/// A step of this number.
fn take_step(settings: &StepSettings, slot: &mut SequenceSlot, i: usize) -> Outcome
    ensures slot { slot.new ≡ (slot_step settings.now (acts.Step i) slot.old).0 }
    ensures outcome { result.items ≡ (slot_step settings.now (acts.Step i) slot.old).1 }
{
    if !slot.enabled || i != slot.next || i >= settings.steps {
        return Outcome::new();
    }
    slot.next = i + 1;
    step_once(settings, slot)
}
