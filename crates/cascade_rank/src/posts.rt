//! The events to which an event leads: those whose weights are in what it costs.
//!
//! These events are the same in every state of the machine. So a post counts even if the variable may keep its value,
//! or the condition of the binding may not be met. A ball that enters a device leads to the device's event, to
//! `ball_drain`, and to the answers of the devices that may be told of it.

ghost use Rattle.std.specs.Prelude.{◌≡◌, ◌<◌, length, IfOk, OnOk};
ghost use Rattle.plan_tables.specs.Valid.{IsValid};
ghost use Rattle.cascade_rank.specs.Cost.{cost_of_event};
ghost use Rattle.cascade_rank.specs.Mentions.{weights_in};

use crate::costs::measure_event;
use crate::measure::Measure;
use plan_tables::{EventId, Plan};
use std::alloc::{AllocError, Global};

/// The events whose weights are in a cost, from left to right, each as often as it is there.
#[derive(Drop)]
pub(crate) struct Posts {
    events: Vec<EventId>,
    /// Whether there was memory for all of them.
    is_whole: bool,
}

impl Measure for Posts {
    ghost use Rattle.std.specs.Prelude.{◌≡◌, ◌++◌, true};
    ghost use Rattle.std.proofs.Common.{rules};
    ghost use Rattle.cascade_rank.specs.Mentions.{weights_in};

    type Value = ();

    ghost Measures = { λ x c y v. y.is_whole ≡ true
        → (x.is_whole ≡ true) × (y.events.items ≡ x.events.items ++ weights_in c) };

    ghost alike = { λ x y a b v same are whole. Prim.search rules };

    fn lines(&self, _count: u64) {}

    fn step(&self) {}

    fn weight(&mut self, event: EventId) {
        if self.events.push(event).is_err() {
            self.is_whole = false;
        }
    }

    fn both(&self, _one: (), _other: ()) {}

    fn greater(&self, _one: (), _other: ()) {}
}

impl Posts {
    /// No events yet.
    pub(crate) fn new(alloc: Global) -> Posts {
        Posts {
            events: Vec::new(alloc),
            is_whole: true,
        }
    }

    /// The events to which this one leads, in place of those before. Fails if memory runs out.
    pub(crate) fn of(&mut self, plan: &Plan, event: EventId) -> Result<&[EventId], AllocError>
        requires { event.0 < length plan.now.events }
        ensures posts { IfOk result (λ posts. posts.now ≡ weights_in (cost_of_event plan.now event)) }
        ensures valid { OnOk result (IsValid plan.now) }
    {
        self.events.clear();
        self.is_whole = true;
        measure_event(self, plan, event);
        if self.is_whole {
            Ok(self.events.as_slice())
        } else {
            Err(AllocError)
        }
    }
}
