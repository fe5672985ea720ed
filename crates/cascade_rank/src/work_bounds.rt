//! The most lines and steps that one stimulus can take.
//!
//! A bound counts lines. A handler whose condition is not met writes none, nor does a device that answers no list, and
//! yet they take time. So each handler that is looked at is a step here, and so is each call of a device. The least
//! weights in lines and steps are found in the same way as those in lines.

ghost use Rattle.std.specs.Prelude.{◌≡◌, ◌-◌, ◌^◌, None, length, IfOk};
ghost use Rattle.cascade_rank.specs.Cycle.{first_open};
ghost use Rattle.cascade_rank.specs.Order.{IsWholeOrder, AreRanks};
ghost use Rattle.cascade_rank.specs.Events.{weight_of};
ghost use Rattle.cascade_rank.specs.Weights.{need_at, bound_at};
ghost use Rattle.cascade_rank.specs.Measures.{saturate};
ghost use Rattle.cascade_rank.specs.Working.{GivesWork, IsBoundOf};

use crate::costs::measure_event;
use crate::fault::RankFault;
use crate::ground::ground;
use crate::steps::Steps;
use crate::stimuli::measure_stimuli;
use crate::walk::{first_left, walk};
use plan_tables::{EventId, Plan};
use std::alloc::{AllocError, Global};

/// The most lines and steps that one stimulus can take, added up. A step is a handler that is looked at, or
/// a call of a device. It says nothing of time.
#[derive(Clone, Copy, Debug)]
pub enum WorkBound {
    /// So many: less than 2^64 - 1.
    Within(u64),
    /// 2^64 - 1, or more.
    Beyond,
}

/// The most lines and steps that one stimulus can take.
///
/// # Errors
///
/// - `Cycle`: events lead to each other without end, so there is no bound.
/// - `NoMemory`: memory ran out.
///
/// There are no others.
pub fn work_bound(alloc: Global, plan: &Plan) -> Result<WorkBound, RankFault>
    ensures { GivesWork plan.now result }
{
    let grounding = ground(alloc, plan)?;
    if let Some(place) = first_left(&grounding.unmet_counts) {
        let start = EventId(place as u16);
        return Err(RankFault::Cycle(walk(alloc, plan, &grounding.unmet_counts, start)?));
    }
    let weights = weigh_steps(alloc, plan, &grounding.order)?;
    Ok(limit_steps(measure_stimuli(&mut Steps { weights: &weights }, plan)))
}

/// What each event needs in lines and steps, or `u64::MAX` if it needs more: in the order, so that what an
/// event leads to is weighed before it.
fn weigh_steps(alloc: Global, plan: &Plan, order: &[EventId]) -> Result<Vec<u64>, AllocError>
    requires { IsWholeOrder plan.now order.now }
    ensures { IfOk result (λ weights. AreRanks 1 (2 ^ 64 - 1) plan.now weights.items) }
{
    let mut weights = vec![in alloc; 0u64; plan.event_count()]?;
    for event in order {
        let steps_needed = measure_event(&mut Steps { weights: &weights }, plan, *event);
        weights[event.0 as usize] = steps_needed.min(u128::from(u64::MAX)) as u64;
    }
    Ok(weights)
}

/// The bound, if it is less than 2^64 - 1.
fn limit_steps(steps: u128) -> WorkBound
    ensures { IsBoundOf steps result }
{
    if steps < u128::from(u64::MAX) {
        WorkBound::Within(steps as u64)
    } else {
        WorkBound::Beyond
    }
}
