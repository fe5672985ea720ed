//! Devices whose state is a slot for each player, or one slot for all.
//!
//! A [`SlotKind`] says what an act does to one slot. [`SlotDevice`] is the device of such a kind: it keeps the slots,
//! and finds the one in use. If a slot is left over from another game, it begins that slot anew.
#![tactic(auto)]

mod slot;
mod slotted;

pub use slotted::{Resume, SlotDevice, SlotKind};
