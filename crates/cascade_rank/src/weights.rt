//! Weights of events.

use plan_tables::EventId;
use std::marker::Model;

/// A weight for each event, in the order of their numbers. If the weights fit, posting an event
/// once causes at most as many lines as it weighs.
#[derive(Drop)]
pub struct Weights {
    weights: Vec<u32>,
}

impl Model for Weights {
    ghost use Rattle.std.specs.Prelude.{ℕ, List};

    ghost Value = { List ℕ };

    ghost view = { λ w. w.weights.items };
}

impl Weights {
    ghost use Rattle.std.specs.Prelude.{◌≡◌, slice_get};

    /// Takes these weights as they are. It does not check whether they fit.
    pub fn of(weights: Vec<u32>) -> Weights
        ensures { result ≡ weights.items }
    {
        Weights { weights }
    }

    /// The weight of an event; none if there are not so many weights.
    pub fn get(&self, event: EventId) -> Option<u32>
        ensures { result ≡ slice_get self.now event.0 }
    {
        self.weights.get(event.0 as usize).copied()
    }

    pub(crate) fn as_slice(&self) -> &[u32]
        ensures { result.now ≡ self.now }
    {
        &self.weights
    }
}
