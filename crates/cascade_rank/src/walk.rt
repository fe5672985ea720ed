//! The walk along events that are not grounded.

ghost use Rattle.std.specs.Prelude.{◌≡◌, ◌<◌, ◌==◌, nat_lt, length, position, IfOk};
ghost use Rattle.std.specs.List.{All};
ghost use Rattle.plan_tables.specs.Valid.{IsEventWithin};
ghost use Rattle.cascade_rank.specs.Cost.{each_of, cost_of_post};
ghost use Rattle.cascade_rank.specs.LeadsTo.{is_open, IsCycle};
ghost use Rattle.cascade_rank.specs.Cycle.{IsFirst, IsReportedCycle, next_open, from_first, cycle_of};
ghost use Rattle.cascade_rank.specs.Lowest.{lowest, IsLeft};
ghost use Rattle.cascade_rank.specs.Order.{left_of};

use crate::posts::Posts;
use plan_tables::{EventId, Plan};
use std::alloc::{AllocError, Global};

/// The place of the first event of which something is left, if there is one.
pub(crate) fn first_left(unmet_counts: &[usize]) -> Option<usize>
    ensures { result ≡ position (λ n. nat_lt 0 n) unmet_counts.now }
{
    unmet_counts.iter().position(|posts| *posts > 0)
}

/// The cycle to which the walk comes that begins at the lowest-numbered event of which something
/// is left.
pub(crate) fn walk(
    alloc: Global,
    plan: &Plan,
    unmet_counts: &[usize],
    start: EventId,
) -> Result<Vec<EventId>, AllocError>
    requires unmet_counts { IsLeft plan.now unmet_counts.now }
    requires within { start.0 < length plan.now.events }
    requires first { IsFirst (is_open plan.now) start }
    ensures cycle { IfOk result (λ cycle. cycle.items ≡ cycle_of plan.now start) }
    ensures reports { IfOk result (λ cycle. IsReportedCycle plan.now cycle.items) }
    ensures is_one { IfOk result (λ cycle. IsCycle plan.now cycle.items) }
{
    let mut on_path = vec![in alloc; false; plan.event_count()]?;
    let mut path = Vec::new(alloc);
    let mut posts = Posts::new(alloc);
    let mut at = start;
    while !on_path[at.0 as usize] {
        on_path[at.0 as usize] = true;
        path.push(at)?;
        at = next(&mut posts, plan, unmet_counts, at)?;
    }
    part_from(alloc, &path, at)
}

/// The path from the first coming of the event on.
fn part_from(alloc: Global, path: &[EventId], event: EventId) -> Result<Vec<EventId>, AllocError>
    ensures { IfOk result (λ part. part.items ≡ from_first event path.now) }
{
    let place = place_of(path, event).unwrap_or(path.len());
    Vec::from_slice(alloc, &path[place..])
}

fn place_of(path: &[EventId], event: EventId) -> Option<usize>
    ensures { result ≡ position (λ e. e.0 == event.0) path.now }
{
    path.iter().position(|other| other.0 == event.0)
}

/// Where the walk goes on to: of the events to which the event leads, and of which something is
/// left, the lowest-numbered.
fn next(
    posts: &mut Posts,
    plan: &Plan,
    unmet_counts: &[usize],
    event: EventId,
) -> Result<EventId, AllocError>
    requires unmet_counts { IsLeft plan.now unmet_counts.now }
    requires within { event.0 < length plan.now.events }
    ensures { IfOk result (λ then. then ≡ next_open plan.now event) }
{
    let followers = posts.of(plan, event)?;
    Ok(EventId(lowest_left(unmet_counts, followers)))
}

/// The lowest of these of which something is left, or the number of events if there is none.
fn lowest_left(unmet_counts: &[usize], posts: &[EventId]) -> u16
    requires within { All (IsEventWithin (length unmet_counts.now)) posts.now }
    requires small { length unmet_counts.now < 65536 }
    ensures { result ≡ lowest (length unmet_counts.now) (λ e. nat_lt 0 (left_of unmet_counts.now e))
        (each_of cost_of_post posts.now) }
{
    let mut lowest = unmet_counts.len() as u16;
    for event in posts {
        if unmet_counts[event.0 as usize] > 0 {
            lowest = lowest.min(event.0);
        }
    }
    lowest
}
