//! What was accepted.

use cascade_rank::Weights;
use plan_tables::Plan;
use std::marker::Model;

/// A plan that was accepted, with the weights and the bound of its certificate.
#[derive(Drop)]
pub struct Checked {
    plan: Plan,
    weights: Weights,
    bound: u32,
}

impl Model for Checked {
    ghost use Rattle.written_machine.specs.CheckedView.{CheckedView};

    ghost Value = { CheckedView };

    ghost use Rattle.written_machine.specs.Accepted.{IsAccepted};

    ghost view = { λ c. record { plan = c.plan; weights = c.weights; bound = c.bound } };

    ghost invariant = { λ c. IsAccepted (record { plan = c.plan; weights = c.weights; bound = c.bound }) };
}

impl Checked {
    ghost use Rattle.std.specs.Prelude.{◌≡◌};
    ghost use Rattle.written_machine.specs.CheckedView.{CheckedView};
    ghost use Rattle.written_machine.specs.Accepted.{IsAccepted};
    ghost use Rattle.written_machine.specs.GoodRun.{IsGood};

    /// What was accepted, which the caller has to have proved. `config_checker::check` makes one from a configuration.
    pub fn new(plan: Plan, weights: Weights, bound: u32) -> Checked
        requires { IsAccepted (record { plan = plan; weights = weights; bound = bound }) }
        ensures { result ≡ record { plan = plan; weights = weights; bound = bound } }
    {
        Checked {
            plan,
            weights,
            bound,
        }
    }

    /// The plan.
    pub fn plan(&self) -> &Plan
        ensures plan { result.now ≡ self.now.plan }
        ensures accepted { IsAccepted self.now }
        ensures good { IsGood self.now }
    {
        &self.plan
    }

    /// The weight of each event, 1 to 100,000: posting it once causes at most so many lines.
    pub fn weights(&self) -> &Weights
        ensures weights { result.now ≡ self.now.weights }
        ensures accepted { IsAccepted self.now }
        ensures good { IsGood self.now }
    {
        &self.weights
    }

    /// The bound, 0 to 100,000: one stimulus causes at most so many lines.
    pub fn bound(&self) -> u32
        ensures bound { result ≡ self.now.bound }
        ensures accepted { IsAccepted self.now }
        ensures good { IsGood self.now }
    {
        self.bound
    }
}
