//! A bank of shots: its states and lists, its first slots, what it can answer, its shape, and when two are the same.

ghost use Rattle.std.specs.Prelude.{◌≡◌, ◌+◌, ◌<◌, ◌≤◌, ◌↔◌, [], ◌∷◌, ◌++◌, IsTrue, map};
ghost use Rattle.std.specs.List.{All};
ghost use Rattle.arrayvec.specs.ArrayVec.{array_vec_len};
ghost use Rattle.plan_tables.specs.Devices.{IsWithinLimits};
ghost use Rattle.plan_tables.specs.declared.devices.Settings.TheVariants as kinds;
ghost use Rattle.device_objects.specs.Slots.{first_slots};
ghost use Rattle.device_objects.specs.Bank.{HasBankShape, can_complete, group_complete, group_hit, hit_completing};
ghost use Rattle.device_objects.specs.Bank.{hit_lists, next_state, of_bank, of_hit, of_hit_in, shot_hit, slots};

use crate::answers::{Outcomes, silent, with, with_if};
use crate::device::Outcome;
use crate::same::are_same_marks;
use crate::state::BankSlot;
use plan_tables::{Act, BankSettings};

/// The next state. After the last one comes the first if the profile loops. If not, the last one stays.
pub fn next_state(bank: &BankSettings, state: u8) -> u8
    ensures { result ≡ next_state bank.now state }
{
    if state < bank.last_state {
        state + 1
    } else if bank.loops {
        0
    } else {
        state
    }
}

/// The list of a shot that is hit in this state.
fn shot_hit(bank: &BankSettings, shot: usize, state: u8) -> u16
    requires limits { IsWithinLimits (kinds.Bank bank.now) }
    requires shot { shot < bank.now.shots }
    ensures { result ≡ shot_hit bank.now shot state }
{
    shot as u16 * (u16::from(bank.last_state) + 1) + u16::from(state)
}

/// The list of a group of which a shot is hit in this state.
fn group_hit(bank: &BankSettings, state: u8) -> u16
    requires { IsWithinLimits (kinds.Bank bank.now) }
    ensures { result ≡ group_hit bank.now state }
{
    u16::from(bank.shots) * (u16::from(bank.last_state) + 1) + u16::from(state)
}

/// The list of a group whose shots have all come to this state.
pub fn group_complete(bank: &BankSettings, state: u8) -> u16
    requires { IsWithinLimits (kinds.Bank bank.now) }
    ensures { result ≡ group_complete bank.now state }
{
    (u16::from(bank.shots) + 1) * (u16::from(bank.last_state) + 1) + u16::from(state)
}

/// What a hit runs: the list of the shot, and that of the group, for the state before it.
pub fn hit_lists(bank: &BankSettings, shot: usize, state: u8) -> Outcome
    requires limits { IsWithinLimits (kinds.Bank bank.now) }
    requires shot { shot < bank.now.shots }
    ensures lists { result.items ≡ hit_lists bank.now shot state }
    ensures count { array_vec_len result ≤ 2 }
{
    let mut lists = Outcome::new();
    lists.push(shot_hit(bank, shot, state));
    if bank.group {
        lists.push(group_hit(bank, state));
    }
    lists
}

/// The slots at first.
#[inline]
pub(crate) fn first_banks(bank: &BankSettings) -> [BankSlot; 4]
    ensures { result ≡ first_slots (slots bank.now) }
{
    [BankSlot {
        game: 0,
        enabled: bank.enabled,
        states: [0; 16],
    }; 4]
}

/// Whether a hit of a shot in this state moves it, and so can complete its group.
fn can_complete(bank: &BankSettings, state: u8) -> bool
    ensures { result ≡ can_complete bank.now state }
{
    bank.group && bank.advance_on_hit && next_state(bank, state) != state
}

/// The lists of a hit that completes the group.
fn hit_completing(bank: &BankSettings, shot: usize, state: u8) -> Outcome
    requires limits { IsWithinLimits (kinds.Bank bank.now) }
    requires shot { shot < bank.now.shots }
    ensures lists { result.items ≡ hit_completing bank.now shot state }
    ensures count { array_vec_len result ≤ 3 }
{
    let mut lists = hit_lists(bank, shot, state);
    lists.push(group_complete(bank, next_state(bank, state)));
    lists
}

/// A shot that is hit in this state. The only shot of a group always completes it when it moves.
fn with_hit_in(all: Outcomes, bank: &BankSettings, shot: usize, state: u8) -> Outcomes
    requires room { array_vec_len all + 2 ≤ 33 }
    requires limits { IsWithinLimits (kinds.Bank bank.now) }
    requires shot { shot < bank.now.shots }
    ensures answers { map (λ o. o.items) result.items ≡ map (λ o. o.items) all.items ++ of_hit_in bank.now shot state }
    ensures count { array_vec_len result ≤ array_vec_len all + 2 }
{
    let hit = hit_lists(bank, shot, state);
    if !can_complete(bank, state) {
        return with(all, &hit);
    }
    let all = with_if(all, 1 < bank.shots, &hit);
    with(all, &hit_completing(bank, shot, state))
}

/// A shot that is hit, in whatever state; or nothing, if it is disabled.
fn of_hit(bank: &BankSettings, shot: usize) -> Outcomes
    requires limits { IsWithinLimits (kinds.Bank bank.now) }
    requires shot { shot < bank.now.shots }
    ensures { map (λ o. o.items) result.items ≡ [] ∷ of_hit bank.now shot }
{
    let mut all = silent();
    for state in 0..bank.last_state + 1 {
        all = with_hit_in(all, bank, shot, state);
    }
    all
}

pub(crate) fn of_bank(bank: &BankSettings, act: Act) -> Outcomes
    requires { IsWithinLimits (kinds.Bank bank.now) }
    ensures { map (λ o. o.items) result.items ≡ of_bank bank.now act }
{
    match act {
        Act::Hit(shot) if shot < usize::from(bank.shots) => of_hit(bank, shot),
        _ => silent(),
    }
}

/// Whether each of these states is one of a profile with this last state.
fn are_up_to(last: u8, states: &[u8]) -> bool
    ensures { IsTrue result ↔ All (λ s. s ≤ last) states.now }
{
    for state in states {
        if *state > last {
            return false;
        }
    }
    true
}

/// Whether the slot is of the shape that the bank asks for.
fn is_of_bank(bank: &BankSettings, slot: &BankSlot) -> bool
    ensures { IsTrue result ↔ HasBankShape bank.now slot.now }
{
    slot.enabled.len() == bank.enabled.len()
        && slot.states.len() == 16
        && are_up_to(bank.last_state, &slot.states)
}

/// Whether all slots are of the shape that the bank asks for.
pub(crate) fn are_of_bank(bank: &BankSettings, slots: &[BankSlot]) -> bool
    ensures { IsTrue result ↔ All (HasBankShape bank.now) slots.now }
{
    for slot in slots {
        if !is_of_bank(bank, slot) {
            return false;
        }
    }
    true
}

pub(crate) fn is_same_bank_kind(a: &BankSettings, b: &BankSettings) -> bool
    ensures { IsTrue result ↔ (a.now ≡ b.now) }
{
    a.shots == b.shots
        && are_same_marks(&a.enabled, &b.enabled)
        && a.last_state == b.last_state
        && a.advance_on_hit == b.advance_on_hit
        && a.loops == b.loops
        && a.group == b.group
}

fn is_same_bank(a: &BankSlot, b: &BankSlot) -> bool
    ensures { IsTrue result ↔ (a.now ≡ b.now) }
{
    a.game == b.game
        && are_same_marks(&a.enabled, &b.enabled)
        && are_same_shots(&a.states, &b.states)
}

fn are_same_shots(a: &[u8; 16], b: &[u8; 16]) -> bool
    ensures { IsTrue result ↔ (a.now ≡ b.now) }
{
    *a == *b
}

pub(crate) fn are_same_banks(a: &[BankSlot; 4], b: &[BankSlot; 4]) -> bool
    ensures { IsTrue result ↔ (a.now ≡ b.now) }
{
    is_same_bank(&a[0], &b[0])
        && is_same_bank(&a[1], &b[1])
        && is_same_bank(&a[2], &b[2])
        && is_same_bank(&a[3], &b[3])
}
