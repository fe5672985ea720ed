//! Whether given weights fit, and the bound that follows from them.

ghost use Rattle.std.specs.Prelude.{◌≡◌, nat_le, length, IfOk, IfErr, IfSome, IfNone};
ghost use Rattle.std.specs.List.{list_all};
ghost use Rattle.cascade_rank.specs.Events.{weight_of};
ghost use Rattle.cascade_rank.specs.Weights.{IsFitting, bound_of, IsWithinLimit, greatest};
ghost use Rattle.cascade_rank.specs.Finding.{verified_at};
ghost use Rattle.cascade_rank.specs.View.{GivesBound, IfRank};
ghost use Rattle.cascade_rank.specs.Verified.{IsVerified, IsUnverified, IsFirstShort};

use crate::fault::RankFault;
use crate::price::need;
use crate::stimuli::bound_of;
use crate::weights::Weights;
use plan_tables::{EventId, Plan};

/// The greatest weight and the greatest bound that are accepted.
pub(crate) const GREATEST: u32 = 100_000;

/// The most lines that one stimulus can cause: 0 to 100,000.
#[derive(Clone, Copy, Debug)]
pub struct Bound(pub u32);

/// The bound of these weights, if there is one for each event, each event weighs at least what it
/// needs, and neither a weight nor the bound is above 100,000. It takes no memory.
///
/// # Errors
///
/// The first of these that applies:
///
/// - `WrongEvents`: there are not as many weights as events.
/// - `Short`: an event weighs too little; the lowest-numbered one is reported.
/// - `BoundTooLarge`: a weight or the bound is above 100,000.
pub fn verify(plan: &Plan, weights: &Weights) -> Result<Bound, RankFault>
    ensures exact { GivesBound result (verified_at plan.now weights.now) }
    ensures verified { IfOk result (λ bound. IsVerified plan.now weights.now bound.0) }
    ensures refused { IfErr result (λ fault. IfRank fault (IsUnverified plan.now weights.now)) }
{
    let weights = weights.as_slice();
    if weights.len() != plan.event_count() {
        return Err(RankFault::WrongEvents);
    }
    match first_short(plan, weights) {
        Some((event, least_weight)) => Err(RankFault::Short(event, least_weight)),
        None => limited_bound(plan, weights).ok_or(RankFault::BoundTooLarge),
    }
}

/// The lowest-numbered event that weighs less than it needs, and what it needs, if there is one.
fn first_short(plan: &Plan, weights: &[u32]) -> Option<(EventId, u128)>
    requires { length weights.now ≡ length plan.now.events }
    ensures short { IfSome result (λ found. IsFirstShort plan.now weights.now found.0 found.1) }
    ensures fits { IfNone result (IsFitting plan.now (weight_of weights.now)) }
{
    for number in 0..plan.event_count() {
        let event = EventId(number as u16);
        let least_weight = need(plan, weights, event);
        if u128::from(weights[number]) < least_weight {
            return Some((event, least_weight));
        }
    }
    None
}

/// The bound of weights, or none if it or a weight is above the limit.
pub(crate) fn limited_bound(plan: &Plan, weights: &[u32]) -> Option<Bound>
    requires { length weights.now ≡ length plan.now.events }
    ensures within { IfSome result (λ bound. IsWithinLimit plan.now weights.now
        × (bound.0 ≡ bound_of plan.now (weight_of weights.now))) }
    ensures above { IfNone result (¬ (IsWithinLimit plan.now weights.now)) }
{
    let bound = bound_of(plan, weights);
    if bound > u128::from(GREATEST) || !are_limited(weights) {
        return None;
    }
    Some(Bound(bound as u32))
}

/// Whether no weight is above the limit.
fn are_limited(weights: &[u32]) -> bool
    ensures { result ≡ list_all (λ w. nat_le w greatest) weights.now }
{
    weights.iter().all(|weight| *weight <= GREATEST)
}
