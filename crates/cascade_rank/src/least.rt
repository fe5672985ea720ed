//! The least weights of a plan.

ghost use Rattle.std.specs.Prelude.{◌+◌, IfOk, IfErr};
ghost use Rattle.cascade_rank.specs.Weights.{IsLeastFitting, IsWithinLimit, greatest};
ghost use Rattle.cascade_rank.specs.Finding.{found_at};
ghost use Rattle.cascade_rank.specs.View.{GivesFound, GivesBounded, IfRank};
ghost use Rattle.cascade_rank.specs.Found.{IsUnfound};
ghost use Rattle.cascade_rank.specs.Verified.{IsVerified};
ghost use Rattle.cascade_rank.specs.Order.{IsWholeOrder, AreRanks};

use crate::fault::RankFault;
use crate::ground::ground;
use crate::price::need;
use crate::verdict::{Bound, GREATEST, limited_bound};
use crate::walk::{first_left, walk};
use crate::weights::Weights;
use plan_tables::{EventId, Plan};
use std::alloc::{AllocError, Global};

/// Whatever weighs more counts as this: one more than the greatest weight.
const TOO_MUCH: u32 = GREATEST + 1;

/// The least weights that fit the plan.
///
/// # Errors
///
/// - `Cycle`: events lead to each other without end, so no weights fit.
/// - `BoundTooLarge`: there is no cycle, and one of the least weights, or the most lines that one
///   stimulus can cause, is above 100,000.
/// - `NoMemory`: memory ran out.
///
/// There are no others.
pub fn find(alloc: Global, plan: &Plan) -> Result<Weights, RankFault>
    ensures exact { GivesFound result (found_at plan.now) }
    ensures least { IfOk result (λ weights. IsLeastFitting plan.now weights) }
    ensures within { IfOk result (λ weights. IsWithinLimit plan.now weights) }
    ensures refused { IfErr result (λ fault. IfRank fault (IsUnfound plan.now)) }
{
    match find_bounded(alloc, plan) {
        Ok((weights, _)) => Ok(weights),
        Err(fault) => Err(fault),
    }
}

/// The least weights that fit the plan, as `find` gives them, and the bound that `verify` gives for
/// them. They are found and bounded in one pass, so `verify` need not be asked.
///
/// # Errors
///
/// As of [`find`].
pub fn find_bounded(alloc: Global, plan: &Plan) -> Result<(Weights, Bound), RankFault>
    ensures exact { GivesBounded result (found_at plan.now) }
    ensures least { IfOk result (λ found. IsLeastFitting plan.now found.0) }
    ensures verified { IfOk result (λ found. IsVerified plan.now found.0 found.1.0) }
    ensures refused { IfErr result (λ fault. IfRank fault (IsUnfound plan.now)) }
{
    let grounding = ground(alloc, plan)?;
    if let Some(place) = first_left(&grounding.unmet_counts) {
        let start = EventId(place as u16);
        return Err(RankFault::Cycle(walk(alloc, plan, &grounding.unmet_counts, start)?));
    }
    let weights = weigh(alloc, plan, &grounding.order)?;
    match limited_bound(plan, &weights) {
        None => Err(RankFault::BoundTooLarge),
        Some(bound) => Ok((Weights::of(weights), bound)),
    }
}

/// What each event needs, or one more than the greatest weight if it needs more: in the order, so
/// that what an event leads to is weighed before it.
fn weigh(alloc: Global, plan: &Plan, order: &[EventId]) -> Result<Vec<u32>, AllocError>
    requires { IsWholeOrder plan.now order.now }
    ensures { IfOk result (λ weights. AreRanks 0 (greatest + 1) plan.now weights.items) }
{
    let mut weights = vec![in alloc; 0u32; plan.event_count()]?;
    for event in order {
        let least_weight = need(plan, &weights, *event);
        weights[event.0 as usize] = least_weight.min(u128::from(TOO_MUCH)) as u32;
    }
    Ok(weights)
}
