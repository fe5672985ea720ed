//! A bank of shots.

ghost use Rattle.std.specs.Prelude.{◌≡◌, ◌<◌, ◌↔◌, IsTrue, slice_get, true};
ghost use Rattle.plan_tables.specs.Devices.{IsWithinLimits};
ghost use Rattle.plan_tables.specs.declared.devices.Act.TheVariants as acts;
ghost use Rattle.plan_tables.specs.declared.devices.Settings.TheVariants as kinds;
ghost use Rattle.device_objects.specs.Bank.{advance_where, slot_step};

use crate::shots::{go_on, hit, rotate_left, rotate_right};
use device_objects::{BankSlot, DeviceState, Outcome};
use plan_tables::{Act, BankSettings, DeviceRow, Settings};
use slotted_devices::{SlotDevice, SlotKind};

/// A bank of shots: each hit of a shot runs the lists of its state, and can move the shot on. A group
/// is complete when a hit moves one of its shots to the state that all the others have.
///
/// `new` gives none for a row with more than 16 shots or 16 states. No plan has one.
pub type ShotBank = SlotDevice<BankKind>;

/// The kind of [`ShotBank`]: its row and its settings.
#[derive(Clone, Copy)]
pub struct BankKind {
    row: DeviceRow,
    settings: BankSettings,
    ghost kind: { row.settings ≡ kinds.Bank settings },
    ghost limits: { IsWithinLimits (kinds.Bank settings) },
}

impl SlotKind for BankKind {
    ghost use Rattle.device_objects.specs.Bank.{slots};
    ghost use Rattle.device_objects.specs.declared.state.DeviceState.TheVariants as states;
    ghost use Rattle.shot_groups.specs.{Kind.IsBank, Steps.bank_steps};

    type Slot = BankSlot;

    type SlotView = BankSlot;

    ghost IsOfKind = { IsBank };

    ghost row_of = { λ k. k.row };

    ghost state_of = { states.Bank };

    ghost model = { λ k. slots k.settings };

    ghost slot_view = { λ slot. slot };

    ghost steps = { λ k. bank_steps k.row.settings k.settings k.kind };

    fn of_row(row: &DeviceRow) -> Option<Self> {
        match row.settings {
            Settings::Bank(settings) if is_within(&settings) => Some(BankKind {
                row: *row,
                settings,
            }),
            _ => None,
        }
    }

    fn row(&self) -> DeviceRow {
        self.row
    }

    fn state(slots: &[BankSlot; 4]) -> DeviceState {
        DeviceState::Bank(*slots)
    }

    /// Each player has a slot.
    fn persists(&self) -> bool {
        true
    }

    fn first_slot(&self, game: u64) -> BankSlot {
        BankSlot {
            game,
            enabled: self.settings.enabled,
            states: [0; 16],
        }
    }

    fn game(&self, slot: &BankSlot) -> u64 {
        slot.game
    }

    fn step(&self, slot: &mut BankSlot, act: Act, _now: u64) -> Outcome {
        let shots = usize::from(self.settings.shots);
        match act {
            Act::Hit(shot) => return take_hit(&self.settings, slot, shot),
            Act::Advance(shot) if shot < shots => advance(&self.settings, slot, shot),
            Act::ResetShot(shot) if shot < shots => slot.states[shot] = 0,
            Act::EnableShot(shot) if shot < shots => slot.enabled[shot] = true,
            Act::DisableShot(shot) if shot < shots => slot.enabled[shot] = false,
            Act::Reset => slot.states = [0; 16],
            Act::RotateRight => rotate_right(&self.settings, &mut slot.states),
            Act::RotateLeft => rotate_left(&self.settings, &mut slot.states),
            _ => {}
        }
        Outcome::new()
    }
}

/// Whether a plan can have such a bank.
pub(crate) fn is_within(settings: &BankSettings) -> bool
    ensures { IsTrue result ↔ IsWithinLimits (kinds.Bank settings.now) }
{
    settings.shots <= 16 && settings.last_state <= 15
}

/// A shot of this number is hit, which does nothing if it is disabled.
fn take_hit(settings: &BankSettings, slot: &mut BankSlot, shot: usize) -> Outcome
    requires { IsWithinLimits (kinds.Bank settings.now) }
    ensures slot { slot.new ≡ (slot_step settings.now (acts.Hit shot) slot.old).0 }
    ensures outcome { result.items ≡ (slot_step settings.now (acts.Hit shot) slot.old).1 }
{
    if shot >= usize::from(settings.shots) || !slot.enabled[shot] {
        return Outcome::new();
    }
    let state = slot.states[shot];
    if state > settings.last_state {
        return Outcome::new();
    }
    hit(settings, &mut slot.states, shot, state)
}

/// A shot goes on, whether it is enabled or not.
fn advance(settings: &BankSettings, slot: &mut BankSlot, shot: usize)
    requires { shot < 16 }
    ensures { slot.new ≡ advance_where settings.now shot (slice_get slot.old.states shot) slot.old }
{
    let state = slot.states[shot];
    go_on(settings, &mut slot.states, shot, state);
}
