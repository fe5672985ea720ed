//! What follows when a ball device is told something: that a ball has arrived, or that more balls are
//! wanted.
//!
//! A device that is told something answers effect lists, and these tell no further device. So the cost of an effect
//! list has the cost of telling as a parameter. With `OneDevice`, telling costs what the devices that may be told
//! answer. With `Untold`, telling costs nothing.

use crate::costs::measure_telling;
use crate::measure::Measure;
use plan_tables::{Plan, Telling};

/// What it costs to tell a ball device.
pub(crate) trait TellCost {
    ghost use Rattle.std.specs.Prelude.{length};
    ghost use Rattle.plan_tables.specs.PlanView.{PlanView};
    ghost use Rattle.plan_tables.specs.declared.devices.Telling.{Telling};
    ghost use Rattle.cascade_rank.specs.Cost.{Cost};
    ghost use Rattle.cascade_rank.specs.Tellings.{IsTellingWithin};

    /// What it costs to tell this.
    ghost cost: { PlanView → Telling → Cost };

    /// Measures that cost.
    fn measure<M: Measure>(measure: &mut M, plan: &Plan, telling: Telling) -> M::Value
        requires { IsTellingWithin (length plan.now.rows) telling }
        ensures { M.Measures measure.old (cost plan.now telling) measure.new result };
}

/// No device is told, as by the effect lists that a told device answers.
pub(crate) struct Untold;

impl TellCost for Untold {
    ghost use Rattle.cascade_rank.specs.Cost.{cost_of_nobody};

    ghost cost = { λ _. cost_of_nobody };

    fn measure<M: Measure>(measure: &mut M, _plan: &Plan, _telling: Telling) -> M::Value {
        measure.lines(0)
    }
}

/// One device is told: of those that eject their balls to where one has arrived, or the first trough.
pub(crate) struct OneDevice;

impl TellCost for OneDevice {
    ghost use Rattle.cascade_rank.specs.Cost.{cost_of_telling};

    ghost cost = { cost_of_telling };

    fn measure<M: Measure>(measure: &mut M, plan: &Plan, telling: Telling) -> M::Value {
        measure_telling(measure, plan, telling)
    }
}
