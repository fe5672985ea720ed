//! What a sequence is at first, what it can answer, and when two are the same.

ghost use Rattle.std.specs.Prelude.{◌≡◌, ◌↔◌, IsTrue, map};
ghost use Rattle.device_objects.specs.Slots.{first_slots};
ghost use Rattle.device_objects.specs.Sequence.{of_sequence, slots};

use crate::answers::{Outcomes, of_block, silent, with};
use crate::state::SequenceSlot;
use machine_settings::StepSettings;
use plan_tables::Act;

/// The slots at first.
#[inline]
pub(crate) fn first_sequences(sequence: &StepSettings) -> [SequenceSlot; 4]
    ensures { result ≡ first_slots (slots sequence.now) }
{
    [SequenceSlot {
        game: 0,
        enabled: sequence.block.enabled,
        next: 0,
    }; 4]
}

pub(crate) fn of_sequence(sequence: &StepSettings, act: Act) -> Outcomes
    ensures { map (λ o. o.items) result.items ≡ of_sequence sequence.now act }
{
    match act {
        Act::Step(i) if i >= sequence.steps => silent(),
        Act::Step(i) if i + 1 == sequence.steps => with(silent(), &[0, 1, 2]),
        Act::Step(_) => with(silent(), &[0, 1]),
        _ => of_block(&sequence.block, act),
    }
}

fn is_same_sequence(a: &SequenceSlot, b: &SequenceSlot) -> bool
    ensures { IsTrue result ↔ (a.now ≡ b.now) }
{
    a.game == b.game && a.enabled == b.enabled && a.next == b.next
}

pub(crate) fn are_same_sequences(a: &[SequenceSlot; 4], b: &[SequenceSlot; 4]) -> bool
    ensures { IsTrue result ↔ (a.now ≡ b.now) }
{
    is_same_sequence(&a[0], &b[0])
        && is_same_sequence(&a[1], &b[1])
        && is_same_sequence(&a[2], &b[2])
        && is_same_sequence(&a[3], &b[3])
}
