//! What an accrual is at first, what it can answer, its shape, and when two are the same.

ghost use Rattle.std.specs.Prelude.{◌≡◌, ◌↔◌, IsTrue, map};
ghost use Rattle.std.specs.List.{All};
ghost use Rattle.device_objects.specs.Slots.{first_slots};
ghost use Rattle.device_objects.specs.Accrual.{HasMarks, of_accrual, slots};

use crate::answers::{Outcomes, of_block, silent, with, with_if};
use crate::same::are_same_marks;
use crate::state::AccrualSlot;
use machine_settings::StepSettings;
use plan_tables::Act;

/// The slots at first.
#[inline]
pub(crate) fn first_accruals(accrual: &StepSettings) -> [AccrualSlot; 4]
    ensures { result ≡ first_slots (slots accrual.now) }
{
    [AccrualSlot {
        game: 0,
        enabled: accrual.block.enabled,
        done: [false; 16],
    }; 4]
}

pub(crate) fn of_accrual(accrual: &StepSettings, act: Act) -> Outcomes
    ensures { map (λ o. o.items) result.items ≡ of_accrual accrual.now act }
{
    match act {
        Act::Step(i) if i < accrual.steps => {
            with(with_if(silent(), 1 < accrual.steps, &[0, 1]), &[0, 1, 2])
        }
        Act::Step(_) => silent(),
        _ => of_block(&accrual.block, act),
    }
}

/// Whether the slot has 16 marks.
fn has_marks(slot: &AccrualSlot) -> bool
    ensures { IsTrue result ↔ HasMarks slot.now }
{
    slot.done.len() == 16
}

/// Whether each slot has its 16 marks.
pub(crate) fn have_marks(slots: &[AccrualSlot]) -> bool
    ensures { IsTrue result ↔ All HasMarks slots.now }
{
    for slot in slots {
        if !has_marks(slot) {
            return false;
        }
    }
    true
}

fn is_same_accrual(a: &AccrualSlot, b: &AccrualSlot) -> bool
    ensures { IsTrue result ↔ (a.now ≡ b.now) }
{
    a.game == b.game && a.enabled == b.enabled && are_same_marks(&a.done, &b.done)
}

pub(crate) fn are_same_accruals(a: &[AccrualSlot; 4], b: &[AccrualSlot; 4]) -> bool
    ensures { IsTrue result ↔ (a.now ≡ b.now) }
{
    is_same_accrual(&a[0], &b[0])
        && is_same_accrual(&a[1], &b[1])
        && is_same_accrual(&a[2], &b[2])
        && is_same_accrual(&a[3], &b[3])
}
