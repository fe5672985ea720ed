//! A bank of shots that keeps as bits which shots are enabled.

ghost use Rattle.std.specs.Prelude.{◌≡◌, ◌<◌, map, slice_get};
ghost use Rattle.plan_tables.specs.Devices.{IsWithinLimits};
ghost use Rattle.plan_tables.specs.declared.devices.Act.TheVariants as acts;
ghost use Rattle.plan_tables.specs.declared.devices.Settings.TheVariants as kinds;
ghost use Rattle.device_objects.specs.Bank.{advance_where, slot_step};
ghost use Rattle.device_objects.specs.Flags.{flags};
ghost use Rattle.shot_groups.specs.Mask.{slot_of};

use crate::bank::is_within;
use crate::shots::{go_on, hit, rotate_left, rotate_right};
use device_objects::flags::{flags_of, is_set, mask_of, with_flag};
use device_objects::{BankSlot, DeviceState, Outcome};
use plan_tables::{Act, BankSettings, DeviceRow, Settings};
use slotted_devices::{Resume, SlotDevice, SlotKind};

/// A bank of shots that keeps as bits which shots are enabled. Its row and its calls are those of
/// [`ShotBank`](crate::ShotBank), and it can take the place of one in any state.
///
/// `new` gives none for a row with more than 16 shots or 16 states. No plan has one.
pub type MaskBank = SlotDevice<MaskBankKind>;

/// The kind of [`MaskBank`]: its row and its settings.
#[derive(Clone, Copy)]
pub struct MaskBankKind {
    row: DeviceRow,
    settings: BankSettings,
    ghost kind: { row.settings ≡ kinds.Bank settings },
    ghost limits: { IsWithinLimits (kinds.Bank settings) },
}

/// What a [`MaskBank`] keeps for one player.
#[derive(Clone, Copy)]
pub struct ShotMaskSlot {
    /// The game to which it belongs, as in [`BankSlot`].
    game: u64,
    /// Bit i is set if shot i is enabled.
    enabled: u16,
    /// The state of each shot.
    states: [u8; 16],
}

impl SlotKind for MaskBankKind {
    ghost use Rattle.device_objects.specs.Bank.{slots};
    ghost use Rattle.device_objects.specs.declared.state.DeviceState.TheVariants as states;
    ghost use Rattle.shot_groups.specs.{Kind.IsBank, Steps.bank_steps};

    type Slot = ShotMaskSlot;

    type SlotView = BankSlot;

    ghost IsOfKind = { IsBank };

    ghost row_of = { λ k. k.row };

    ghost state_of = { states.Bank };

    ghost model = { λ k. slots k.settings };

    ghost slot_view = { slot_of };

    ghost steps = { λ k. bank_steps k.row.settings k.settings k.kind };

    fn of_row(row: &DeviceRow) -> Option<Self> {
        match row.settings {
            Settings::Bank(settings) if is_within(&settings) => Some(MaskBankKind {
                row: *row,
                settings,
            }),
            _ => None,
        }
    }

    fn row(&self) -> DeviceRow {
        self.row
    }

    fn state(slots: &[ShotMaskSlot; 4]) -> DeviceState {
        DeviceState::Bank(slot_views(slots))
    }

    /// Each player has a slot.
    fn persists(&self) -> bool {
        true
    }

    fn first_slot(&self, game: u64) -> ShotMaskSlot {
        ShotMaskSlot {
            game,
            enabled: mask_of(&self.settings.enabled),
            states: [0; 16],
        }
    }

    fn game(&self, slot: &ShotMaskSlot) -> u64 {
        slot.game
    }

    fn step(&self, slot: &mut ShotMaskSlot, act: Act, _now: u64) -> Outcome {
        let shots = usize::from(self.settings.shots);
        match act {
            Act::Hit(shot) => return take_hit(&self.settings, slot, shot),
            Act::Advance(shot) if shot < shots => advance(&self.settings, slot, shot),
            Act::ResetShot(shot) if shot < shots => slot.states[shot] = 0,
            Act::EnableShot(shot) if shot < shots => {
                slot.enabled = with_flag(slot.enabled, shot, true);
            }
            Act::DisableShot(shot) if shot < shots => {
                slot.enabled = with_flag(slot.enabled, shot, false);
            }
            Act::Reset => slot.states = [0; 16],
            Act::RotateRight => rotate_right(&self.settings, &mut slot.states),
            Act::RotateLeft => rotate_left(&self.settings, &mut slot.states),
            _ => {}
        }
        Outcome::new()
    }
}

impl Resume for MaskBankKind {
    fn slots_of(&self, state: &DeviceState) -> Option<[ShotMaskSlot; 4]> {
        match state {
            DeviceState::Bank(slots) => Some(mask_slots(slots)),
            _ => None,
        }
    }
}

/// A slot with its flags as bits.
fn masked_slot(slot: &BankSlot) -> ShotMaskSlot
    ensures { slot_of result ≡ slot.now }
{
    ShotMaskSlot {
        game: slot.game,
        enabled: mask_of(&slot.enabled),
        states: slot.states,
    }
}

/// The slots with their flags as bits.
fn mask_slots(slots: &[BankSlot; 4]) -> [ShotMaskSlot; 4]
    ensures { map slot_of result ≡ slots.now }
{
    [
        masked_slot(&slots[0]),
        masked_slot(&slots[1]),
        masked_slot(&slots[2]),
        masked_slot(&slots[3]),
    ]
}

/// A slot as others see it.
fn seen_slot(slot: &ShotMaskSlot) -> BankSlot
    ensures { result ≡ slot_of slot.now }
{
    BankSlot {
        game: slot.game,
        enabled: flags_of(slot.enabled),
        states: slot.states,
    }
}

/// The slots as others see them.
fn slot_views(slots: &[ShotMaskSlot; 4]) -> [BankSlot; 4]
    ensures { result ≡ map slot_of slots.now }
{
    [
        seen_slot(&slots[0]),
        seen_slot(&slots[1]),
        seen_slot(&slots[2]),
        seen_slot(&slots[3]),
    ]
}

/// Whether a shot is enabled.
fn is_enabled(enabled: u16, shot: usize) -> bool
    requires { shot < 16 }
    ensures { slice_get (flags enabled) shot ≡ Some result }
{
    is_set(enabled, shot)
}

/// A shot of this number is hit, which does nothing if it is disabled.
fn take_hit(settings: &BankSettings, slot: &mut ShotMaskSlot, shot: usize) -> Outcome
    requires { IsWithinLimits (kinds.Bank settings.now) }
    ensures slot { slot_of slot.new ≡ (slot_step settings.now (acts.Hit shot) (slot_of slot.old)).0 }
    ensures outcome { result.items ≡ (slot_step settings.now (acts.Hit shot) (slot_of slot.old)).1 }
{
    if shot >= usize::from(settings.shots) || !is_enabled(slot.enabled, shot) {
        return Outcome::new();
    }
    let state = slot.states[shot];
    if state > settings.last_state {
        return Outcome::new();
    }
    hit(settings, &mut slot.states, shot, state)
}

/// A shot goes on, whether it is enabled or not.
fn advance(settings: &BankSettings, slot: &mut ShotMaskSlot, shot: usize)
    requires { shot < 16 }
    ensures { slot_of slot.new ≡ advance_where settings.now shot (slice_get (slot_of slot.old).states shot)
        (slot_of slot.old) }
{
    let state = slot.states[shot];
    go_on(settings, &mut slot.states, shot, state);
}
