//! The order in which events can be weighed: each event leads only to earlier ones.

ghost use Rattle.std.specs.Prelude.{◌≡◌, [], length, IfOk};
ghost use Rattle.plan_tables.specs.Valid.{IsValid};
ghost use Rattle.cascade_rank.specs.Order.{CountsPosts, IsOrdering, CanMeet, Meets};

use crate::leaders::count_posts;
use plan_tables::{EventId, Plan};
use std::alloc::{AllocError, Global};

/// The events that can reach no cycle, and what is left of each event.
#[derive(Drop)]
pub(crate) struct Grounding {
    /// Each event comes after those to which it leads.
    pub(crate) order: Vec<EventId>,
    /// How many posts of each event are of events that are not in the order.
    pub(crate) unmet_counts: Vec<usize>,
}

/// The order is its own queue: an event joins it when all events to which it leads are done.
pub(crate) fn ground(alloc: Global, plan: &Plan) -> Result<Grounding, AllocError>
    ensures order { IfOk result (λ grounding. IsOrdering plan.now (length grounding.order.items) []
        grounding.unmet_counts.items
        grounding.order.items) }
    ensures valid { IfOk result (λ _. IsValid plan.now) }
{
    let (leaders, mut unmet_counts) = count_posts(alloc, plan)?;
    let mut order = first_grounded(alloc, plan, &unmet_counts)?;
    let mut next = 0;
    while next < order.len() {
        let event = order[next];
        meet(leaders.of(event), &mut unmet_counts, &mut order)?;
        next += 1;
    }
    Ok(Grounding {
        order,
        unmet_counts,
    })
}

/// The events that lead to none, in the order of their numbers.
fn first_grounded(
    alloc: Global,
    plan: &Plan,
    unmet_counts: &[usize],
) -> Result<Vec<EventId>, AllocError>
    requires count { length unmet_counts.now ≡ length plan.now.events }
    requires unmet_counts { CountsPosts plan.now unmet_counts.now }
    ensures order { IfOk result (λ order. IsOrdering plan.now 0 [] unmet_counts.now order.items) }
    ensures valid { IfOk result (λ _. IsValid plan.now) }
{
    let mut order = Vec::new(alloc);
    for number in 0..plan.event_count() {
        if unmet_counts[number] == 0 {
            order.push(EventId(number as u16))?;
        }
    }
    Ok(order)
}

/// One post less is left of each of these events, and when none is left, the event goes last.
fn meet(
    leaders: &[EventId],
    unmet_counts: &mut [usize],
    order: &mut Vec<EventId>,
) -> Result<(), AllocError>
    requires { CanMeet leaders.now unmet_counts.old order.old.items }
    ensures { IfOk result (λ _. Meets leaders.now leaders.now unmet_counts.old order.old.items unmet_counts.new
        order.new.items) }
{
    for event in leaders {
        let place = event.0 as usize;
        unmet_counts[place] -= 1;
        if unmet_counts[place] == 0 {
            order.push(*event)?;
        }
    }
    Ok(())
}
