//! An accrual that keeps its steps as bits.

ghost use Rattle.std.specs.Prelude.{◌≡◌, ◌<◌, IsTrue, map};
ghost use Rattle.device_objects.specs.Accrual.{after_completion, is_step_open, slot_step, step_once};
ghost use Rattle.device_objects.specs.Flags.{flags};
ghost use Rattle.logic_blocks.specs.Mask.{slot_of};
ghost use Rattle.plan_tables.specs.declared.devices.Act.TheVariants as acts;
ghost use Rattle.plan_tables.specs.declared.devices.Settings.TheVariants as kinds;

use crate::lists::{hit, reset};
use device_objects::flags::{are_set, flags_of, is_set, mask_of, with_flag};
use device_objects::{AccrualSlot, DeviceState, Outcome};
use machine_settings::StepSettings;
use plan_tables::{Act, DeviceRow, Settings};
use slotted_devices::{Resume, SlotDevice, SlotKind};

/// An accrual that keeps which steps are done as bits. Its row and its calls are those of
/// [`Accrual`](crate::Accrual), and it can take the place of one in any state.
pub type MaskAccrual = SlotDevice<MaskAccrualKind>;

/// The kind of [`MaskAccrual`]: its row and its settings.
#[derive(Clone, Copy)]
pub struct MaskAccrualKind {
    row: DeviceRow,
    settings: StepSettings,
    ghost kind: { row.settings ≡ kinds.Accrual settings },
}

/// What a [`MaskAccrual`] keeps for one player, or for all.
#[derive(Clone, Copy)]
pub struct StepMaskSlot {
    /// The game to which it belongs, as in [`AccrualSlot`].
    game: u64,
    /// Whether it takes steps.
    enabled: bool,
    /// Bit i is set if step i is done.
    done: u16,
}

impl SlotKind for MaskAccrualKind {
    ghost use Rattle.device_objects.specs.Accrual.{slots};
    ghost use Rattle.device_objects.specs.declared.state.DeviceState.TheVariants as states;
    ghost use Rattle.logic_blocks.specs.{Kind.IsAccrual, Steps.accrual_steps};

    type Slot = StepMaskSlot;

    type SlotView = AccrualSlot;

    ghost IsOfKind = { IsAccrual };

    ghost row_of = { λ k. k.row };

    ghost state_of = { states.Accrual };

    ghost model = { λ k. slots k.settings };

    ghost slot_view = { slot_of };

    ghost steps = { λ k. accrual_steps k.row.settings k.settings k.kind };

    fn of_row(row: &DeviceRow) -> Option<Self> {
        match row.settings {
            Settings::Accrual(settings) => Some(MaskAccrualKind {
                row: *row,
                settings,
            }),
            _ => None,
        }
    }

    fn row(&self) -> DeviceRow {
        self.row
    }

    fn state(slots: &[StepMaskSlot; 4]) -> DeviceState {
        DeviceState::Accrual(slot_views(slots))
    }

    fn persists(&self) -> bool {
        self.settings.block.persist
    }

    fn first_slot(&self, game: u64) -> StepMaskSlot {
        StepMaskSlot {
            game,
            enabled: self.settings.block.enabled,
            done: 0,
        }
    }

    fn game(&self, slot: &StepMaskSlot) -> u64 {
        slot.game
    }

    fn step(&self, slot: &mut StepMaskSlot, act: Act, _now: u64) -> Outcome {
        match act {
            Act::Step(i) => take_step(&self.settings, slot, i),
            Act::Enable => {
                slot.enabled = true;
                Outcome::new()
            }
            Act::Disable => {
                slot.enabled = false;
                Outcome::new()
            }
            Act::Reset => {
                slot.done = 0;
                reset()
            }
            Act::Restart => {
                slot.done = 0;
                slot.enabled = true;
                reset()
            }
            _ => Outcome::new(),
        }
    }
}

impl Resume for MaskAccrualKind {
    fn slots_of(&self, state: &DeviceState) -> Option<[StepMaskSlot; 4]> {
        match state {
            DeviceState::Accrual(slots) => Some(mask_slots(slots)),
            _ => None,
        }
    }
}

/// A slot with its steps as bits.
fn masked_slot(slot: &AccrualSlot) -> StepMaskSlot
    ensures { slot_of result ≡ slot.now }
{
    StepMaskSlot {
        game: slot.game,
        enabled: slot.enabled,
        done: mask_of(&slot.done),
    }
}

/// The slots with their steps as bits.
fn mask_slots(slots: &[AccrualSlot; 4]) -> [StepMaskSlot; 4]
    ensures { map slot_of result ≡ slots.now }
{
    [
        masked_slot(&slots[0]),
        masked_slot(&slots[1]),
        masked_slot(&slots[2]),
        masked_slot(&slots[3]),
    ]
}

/// A slot as others see it.
fn seen_slot(slot: &StepMaskSlot) -> AccrualSlot
    ensures { result ≡ slot_of slot.now }
{
    AccrualSlot {
        game: slot.game,
        enabled: slot.enabled,
        done: flags_of(slot.done),
    }
}

/// The slots as others see them.
fn slot_views(slots: &[StepMaskSlot; 4]) -> [AccrualSlot; 4]
    ensures { result ≡ map slot_of slots.now }
{
    [
        seen_slot(&slots[0]),
        seen_slot(&slots[1]),
        seen_slot(&slots[2]),
        seen_slot(&slots[3]),
    ]
}

/// Whether there is such a step, and it is not done yet.
fn is_step_open(settings: &StepSettings, i: usize, done: u16) -> bool
    ensures open { result ≡ is_step_open settings.now i (flags done) }
    ensures within { IsTrue result → i < 16 }
{
    i < settings.steps && i < 16 && !is_set(done, i)
}

/// A step was done: the accrual completes, or goes on.
fn step_once(settings: &StepSettings, slot: &mut StepMaskSlot) -> Outcome
    ensures slot { slot_of slot.new ≡ (step_once settings.now (slot_of slot.old)).0 }
    ensures outcome { result.items ≡ (step_once settings.now (slot_of slot.old)).1 }
{
    let completes = are_set(slot.done, settings.steps);
    if completes {
        complete(settings, slot);
    }
    hit(completes)
}

/// The accrual completes.
fn complete(settings: &StepSettings, slot: &mut StepMaskSlot)
    ensures { slot_of slot.new ≡ after_completion settings.now (slot_of slot.old) }
{
    if settings.block.disable_on_complete {
        slot.enabled = false;
    }
    if settings.block.reset_on_complete {
        slot.done = 0;
    }
}

/// A step of this number.
fn take_step(settings: &StepSettings, slot: &mut StepMaskSlot, i: usize) -> Outcome
    ensures slot { slot_of slot.new ≡ (slot_step settings.now (acts.Step i) (slot_of slot.old)).0 }
    ensures outcome { result.items ≡ (slot_step settings.now (acts.Step i) (slot_of slot.old)).1 }
{
    if !slot.enabled || !is_step_open(settings, i, slot.done) {
        return Outcome::new();
    }
    slot.done = with_flag(slot.done, i, true);
    step_once(settings, slot)
}
