//! Kinds of devices with slots, and the device of such a kind.

ghost use Rattle.std.specs.Prelude.{◌≡◌, ◌<◌, ◌^◌, map};
ghost use Rattle.device_objects.specs.Slots.{current, slots_step};
ghost use Rattle.device_objects.specs.declared.device.Call.TheVariants as calls;

use crate::slot::{is_of_other_game, slot_in_use};
use device_objects::{Device, DeviceState, Outcome, World, has_shape};
use plan_tables::{Act, DeviceRow};

/// A kind of device whose state is four slots: one for each player, or the first for all. Nothing of such a device is
/// ever due.
pub trait SlotKind: Copy + Drop {
    ghost use Rattle.std.specs.Prelude.{◌≡◌, ◌↔◌, ◌<◌, ◌^◌, List, map, IsSome, IfSome};
    ghost use Rattle.plan_tables.specs.declared.devices.{DeviceRow.DeviceRow, Settings.Settings};
    ghost use Rattle.device_objects.specs.declared.state.DeviceState.{DeviceState};
    ghost use Rattle.device_objects.specs.Slots.{SlotModel};
    ghost use Rattle.slotted_devices.specs.Slotted.{StepsAreOfSlots};

    /// A slot as the device keeps it.
    type Slot: Copy;

    /// A slot as the state shows it.
    type SlotView;

    /// Whether such a device can have these settings: they are of its kind, and within its limits.
    ghost IsOfKind: { Settings → Type 0 };

    /// The row of the device.
    ghost row_of: { Self → DeviceRow };

    /// The state that has these slots.
    ghost state_of: { List Self.SlotView → DeviceState };

    /// What is known of the slots.
    ghost model: { Self → SlotModel Self.SlotView };

    /// What is seen of a slot.
    ghost slot_view: { Self.Slot → Self.SlotView };

    /// The kind of a row. None exactly if such a device cannot have the settings of the row.
    fn of_row(row: &DeviceRow) -> Option<Self>
        ensures kind { IsSome result ↔ IsOfKind row.now.settings }
        ensures row { IfSome result (λ k. row_of k ≡ row.now) };

    /// The row of the device.
    fn row(&self) -> DeviceRow
        ensures { result ≡ row_of self.now };

    /// The state that has these slots.
    fn state(slots: &[Self::Slot; 4]) -> DeviceState
        ensures { result ≡ state_of (map slot_view slots.now) };

    /// Whether each player has a slot. If not, all share the first.
    fn persists(&self) -> bool
        ensures { result ≡ (model self.now).persist };

    /// A new slot, for this game.
    fn first_slot(&self, game: u64) -> Self::Slot
        ensures { slot_view result ≡ (model self.now).first game };

    /// The game to which a slot belongs.
    fn game(&self, slot: &Self::Slot) -> u64
        ensures { result ≡ (model self.now).game_of (slot_view slot.now) };

    /// What an act does to a slot that counts in this world.
    fn step(&self, slot: &mut Self::Slot, act: Act, now: u64) -> Outcome
        requires { now < 2 ^ 40 }
        ensures slot { slot_view slot.new ≡ ((model self.now).step act now (slot_view slot.old)).0 }
        ensures outcome { result.items ≡ ((model self.now).step act now (slot_view slot.old)).1 };

    /// The state is slots, and each call is a step of them.
    ghost steps: { (k : Self) → StepsAreOfSlots (row_of k).settings state_of (model k) };
}

/// A kind whose devices can be made in any state of the shape that their settings ask for.
pub trait Resume: SlotKind {
    ghost use Rattle.std.specs.Prelude.{◌≡◌, map, IsSome, IfSome};
    ghost use Rattle.device_objects.specs.Laws.{HasShape};

    /// The slots of a state. None only if the state is not of the shape that the settings ask for.
    fn slots_of(&self, state: &DeviceState) -> Option<[Self::Slot; 4]>
        ensures shape { HasShape (Self.row_of self.now).settings state.now → IsSome result }
        ensures state { IfSome result (λ slots. Self.state_of (map Self.slot_view slots) ≡ state.now) };
}

/// A device of kind `K`. Its state is four slots: one for each player, or the first for all.
#[derive(Drop)]
pub struct SlotDevice<K: SlotKind> {
    kind: K,
    slots: [K::Slot; 4],
}

impl<K: SlotKind> SlotDevice<K> {
    ghost use Rattle.std.specs.Prelude.{◌≡◌, ◌↔◌, IsSome, IfSome};
    ghost use Rattle.device_objects.specs.DeviceStep.{first_state};

    /// The device of a row, in its first state. None exactly if the row is not of the kind, as `IsOfKind` says.
    pub fn new(row: &DeviceRow) -> Option<Self>
        ensures kind { IsSome result ↔ K.IsOfKind row.now.settings }
        ensures row { IfSome result (λ d. ⟦<SlotDevice<K> as Device>⟧.row_of d ≡ row.now) }
        ensures first { IfSome result (λ d. ⟦<SlotDevice<K> as Device>⟧.state_of d ≡ first_state row.now.settings) }
    {
        let kind = K::of_row(row)?;
        Some(SlotDevice {
            kind,
            slots: [kind.first_slot(0); 4],
        })
    }
}

impl<K: Resume> SlotDevice<K> {
    ghost use Rattle.std.specs.Prelude.{◌≡◌, ◌↔◌, IsSome, IfSome};
    ghost use Rattle.device_objects.specs.Laws.{HasShape};

    /// The device of a row, in this state. None exactly if [`new`](SlotDevice::new) gives none, or the state is not of
    /// the shape that the row asks for.
    pub fn resume(row: &DeviceRow, state: &DeviceState) -> Option<Self>
        ensures kind { IsSome result ↔ (K.IsOfKind row.now.settings × HasShape row.now.settings state.now) }
        ensures row { IfSome result (λ d. ⟦<SlotDevice<K> as Device>⟧.row_of d ≡ row.now) }
        ensures state { IfSome result (λ d. ⟦<SlotDevice<K> as Device>⟧.state_of d ≡ state.now) }
    {
        let kind = K::of_row(row)?;
        if !has_shape(&row.settings, state) {
            return None;
        }
        Some(SlotDevice {
            kind,
            slots: kind.slots_of(state)?,
        })
    }
}

impl<K: SlotKind> Device for SlotDevice<K> {
    ghost use Rattle.std.specs.Prelude.{◌≡◌, [], map};

    ghost row_of = { λ d. K.row_of d.kind };

    ghost state_of = { λ d. K.state_of (map K.slot_view d.slots) };

    fn row(&self) -> DeviceRow {
        self.kind.row()
    }

    fn state(&self) -> DeviceState {
        K::state(&self.slots)
    }

    fn due(&self) -> Option<u64> {
        None
    }

    fn start(&mut self, _now: u64, _world: World) -> Outcome {
        if !self.kind.persists() {
            self.slots[0] = self.kind.first_slot(0);
        }
        Outcome::new()
    }

    fn stop(&mut self, _now: u64, _world: World) -> Outcome {
        Outcome::new()
    }

    /// Never comes: nothing of the device is due.
    fn fire(&mut self, _now: u64, _world: World) -> Outcome
        ensures same { self.new ≡ self.old }
        ensures outcome { result.items ≡ [] }
    {
        Outcome::new()
    }

    fn act(&mut self, act: Act, now: u64, world: World) -> Outcome {
        act_step(&self.kind, &mut self.slots, act, now, world)
    }
}

/// What an act does to the slots: it is a step of the slot in use. If no slot is in use, nothing is done.
fn act_step<K: SlotKind>(
    kind: &K,
    slots: &mut [K::Slot],
    act: Act,
    now: u64,
    world: World,
) -> Outcome
    requires { now < 2 ^ 40 }
    ensures slots { map K.slot_view slots.new ≡ (slots_step (K.model kind.now) (calls.Act act) now world
        (map K.slot_view slots.old)).0 }
    ensures outcome { result.items ≡ (slots_step (K.model kind.now) (calls.Act act) now world
        (map K.slot_view slots.old)).1 }
{
    match slot_in_use(kind.persists(), world) {
        Some(i) if i < slots.len() => {
            let mut slot = current(kind, world, slots[i]);
            let lists = kind.step(&mut slot, act, now);
            slots[i] = slot;
            lists
        }
        _ => Outcome::new(),
    }
}

/// A slot as it counts in this world.
fn current<K: SlotKind>(kind: &K, world: World, slot: K::Slot) -> K::Slot
    ensures { K.slot_view result ≡ current (K.model kind.now) world (K.slot_view slot) }
{
    if is_of_other_game(kind.persists(), world, kind.game(&slot)) {
        kind.first_slot(world.games)
    } else {
        slot
    }
}
