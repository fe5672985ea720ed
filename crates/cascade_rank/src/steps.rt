//! The price of a cost in lines and steps, at given weights.

use crate::measure::Measure;
use plan_tables::EventId;

/// What a step costs.
const STEP: u128 = 1;

/// Prices in lines and steps at these weights. An event without a weight costs nothing.
///
/// A sum that does not fit becomes the greatest number that does.
#[derive(Clone, Copy)]
pub(crate) struct Steps<'a> {
    pub(crate) weights: &'a [u64],
}

impl Measure for Steps<'_> {
    ghost use Rattle.std.specs.Prelude.{◌≡◌};
    ghost use Rattle.std.proofs.Common.{rules};
    ghost use Rattle.cascade_rank.specs.Cost.{price_at};
    ghost use Rattle.cascade_rank.specs.Events.{weight_of};
    ghost use Rattle.cascade_rank.specs.Measures.{saturate};

    type Value = u128;

    ghost Measures = { λ x c y v. (y ≡ x) × (v ≡ saturate (price_at 1 (weight_of x.weights.now) c)) };

    ghost alike = { λ x y a b v same is. Prim.search rules };

    fn lines(&self, count: u64) -> u128 {
        u128::from(count)
    }

    fn step(&self) -> u128 {
        STEP
    }

    fn weight(&mut self, event: EventId) -> u128 {
        match self.weights.get(event.0 as usize) {
            Some(weight) => u128::from(*weight),
            None => 0,
        }
    }

    fn both(&self, one: u128, other: u128) -> u128 {
        one.saturating_add(other)
    }

    fn greater(&self, one: u128, other: u128) -> u128 {
        one.max(other)
    }
}
