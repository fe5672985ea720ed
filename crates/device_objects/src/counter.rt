//! What a counter is at first, what it can answer, and when two are the same.

ghost use Rattle.std.specs.Prelude.{◌≡◌, ◌↔◌, IsTrue, map};
ghost use Rattle.device_objects.specs.Slots.{first_slots};
ghost use Rattle.device_objects.specs.Counter.{of_counter, slots};

use crate::answers::{Outcomes, of_block, silent, with, with_if};
use crate::same::{are_same_block_settings, are_same_directions};
use crate::state::CounterSlot;
use machine_settings::CounterSettings;
use plan_tables::Act;

/// The slots at first.
#[inline]
pub(crate) fn first_counters(counter: &CounterSettings) -> [CounterSlot; 4]
    ensures { result ≡ first_slots (slots counter.now) }
{
    [CounterSlot {
        game: 0,
        enabled: counter.block.enabled,
        value: counter.start,
        last_hit: None,
    }; 4]
}

pub(crate) fn of_counter(counter: &CounterSettings, act: Act) -> Outcomes
    ensures { map (λ o. o.items) result.items ≡ of_counter counter.now act }
{
    match act {
        Act::Count => with_if(
            with(silent(), &[0, 1]),
            counter.complete.is_some(),
            &[0, 1, 2],
        ),
        _ => of_block(&counter.block, act),
    }
}

pub(crate) fn are_same_counter_settings(a: &CounterSettings, b: &CounterSettings) -> bool
    ensures { IsTrue result ↔ (a.now ≡ b.now) }
{
    are_same_block_settings(&a.block, &b.block)
        && a.start == b.start
        && a.interval == b.interval
        && are_same_directions(a.direction, b.direction)
        && a.complete == b.complete
        && a.window == b.window
}

fn is_same_counter(a: &CounterSlot, b: &CounterSlot) -> bool
    ensures { IsTrue result ↔ (a.now ≡ b.now) }
{
    a.game == b.game && a.enabled == b.enabled && a.value == b.value && a.last_hit == b.last_hit
}

pub(crate) fn are_same_counters(a: &[CounterSlot; 4], b: &[CounterSlot; 4]) -> bool
    ensures { IsTrue result ↔ (a.now ≡ b.now) }
{
    is_same_counter(&a[0], &b[0])
        && is_same_counter(&a[1], &b[1])
        && is_same_counter(&a[2], &b[2])
        && is_same_counter(&a[3], &b[3])
}
