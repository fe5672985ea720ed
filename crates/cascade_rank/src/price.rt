//! The price of a cost in lines, at given weights.

ghost use Rattle.std.specs.Prelude.{◌≡◌, ◌<◌, length};
ghost use Rattle.cascade_rank.specs.Events.{weight_of};
ghost use Rattle.cascade_rank.specs.Cost.{price, cost_of_event};

use crate::costs::measure_event;
use crate::measure::Measure;
use plan_tables::{EventId, Plan};

/// Prices in lines at these weights: a step is free. An event without a weight costs nothing.
///
/// A sum that does not fit becomes the greatest number that does.
#[derive(Clone, Copy)]
pub(crate) struct Price<'a> {
    pub(crate) weights: &'a [u32],
}

impl Measure for Price<'_> {
    ghost use Rattle.std.specs.Prelude.{◌≡◌};
    ghost use Rattle.std.proofs.Common.{rules};
    ghost use Rattle.cascade_rank.specs.Cost.{price};
    ghost use Rattle.cascade_rank.specs.Events.{weight_of};
    ghost use Rattle.cascade_rank.specs.Measures.{saturate};

    type Value = u128;

    ghost Measures = { λ x c y v. (y ≡ x) × (v ≡ saturate (price (weight_of x.weights.now) c)) };

    ghost alike = { λ x y a b v same is. Prim.search rules };

    fn lines(&self, count: u64) -> u128 {
        u128::from(count)
    }

    fn step(&self) -> u128 {
        0
    }

    fn weight(&mut self, event: EventId) -> u128 {
        match self.weights.get(event.0 as usize) {
            Some(weight) => u128::from(*weight),
            None => 0,
        }
    }

    fn both(&self, one: u128, other: u128) -> u128 {
        one.saturating_add(other)
    }

    fn greater(&self, one: u128, other: u128) -> u128 {
        one.max(other)
    }
}

/// What an event costs: its line, all that is bound to it, and the machine's work.
///
/// The price is exact, as none is above 2^73: a weight is below 2^32, and a plan has few entries.
pub(crate) fn need(plan: &Plan, weights: &[u32], event: EventId) -> u128
    requires { event.0 < length plan.now.events }
    ensures { result ≡ price (weight_of weights.now) (cost_of_event plan.now event) }
{
    measure_event(&mut Price { weights }, plan, event)
}
