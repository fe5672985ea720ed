//! What handles an event, in the order in which it runs.

use crate::orders::{add_group, drop_group, first_orders, of_one_event, owned_places};
use plan_tables::{BindingId, EventId, ModeId, Plan};
use std::alloc::{AllocError, Global};
use std::marker::Model;

/// The bindings of a plan, as handlers of its events, and which of its modes run. A binding is a
/// handler while its owner runs; the machine always does. A handler is a place: two equal bindings
/// of an event are two handlers.
#[derive(Drop)]
pub struct Handlers<'p> {
    plan: &'p Plan,
    /// For each mode, whether it runs.
    running: Vec<bool>,
    /// For each mode the places of its bindings: those of an event together, in plan order.
    places_of_modes: Vec<Vec<BindingId>>,
    /// For each event the places of its handlers, in plan order. There is room for all that is
    /// bound to it.
    orders: Vec<Vec<BindingId>>,
    /// Where an order is written down anew. There is room for the places of all bindings.
    fresh: Vec<BindingId>,
}

impl<'p> Model for Handlers<'p> {
    ghost use Rattle.event_queue.specs.Handlers.{HandlersView};

    ghost Value = { HandlersView };

    ghost view = { λ h. record { plan = h.plan.now; running = h.running.items } };

    ghost use Rattle.std.specs.Prelude.{◌≡◌, ◌≤◌, length, vec_capacity};
    ghost use Rattle.plan_tables.specs.Valid.{IsValid};
    ghost use Rattle.event_queue.specs.Handlers.{runs_at};
    ghost use Rattle.event_queue.specs.OrderedLists.{HasOrders, HasOwned};

    ghost invariant = { λ h. (length h.running.items ≡ length h.plan.now.modes)
        × HasOwned h.plan.now h.places_of_modes.items
        × HasOrders h.plan.now (runs_at h.plan.now h.running.items) h.orders.items
        × (length h.plan.now.bindings ≤ vec_capacity h.fresh) × IsValid h.plan.now };
}

impl<'p> Handlers<'p> {
    ghost use Rattle.std.specs.Prelude.{◌≡◌, ◌<◌, true, false, length, slice_get, IfOk, IfSome};
    ghost use Rattle.std.specs.List.{All};
    ghost use Rattle.event_queue.specs.Handlers.{none_running, set_running};
    ghost use Rattle.event_queue.specs.PlanOrder.{in_order};

    /// The handlers of a plan. No mode runs. Fails only by memory.
    pub fn new(alloc: Global, plan: &'p Plan) -> Result<Handlers<'p>, AllocError>
        ensures { IfOk result (λ h. h ≡ record { plan = plan.now; running = none_running plan.now }) }
    {
        let running = vec![in alloc; false; plan.mode_count()]?;
        let places_of_modes = owned_places(alloc, plan)?;
        let orders = first_orders(alloc, plan, &running)?;
        let fresh = Vec::with_capacity(alloc, plan.binding_count())?;
        Ok(Handlers {
            plan,
            running,
            places_of_modes,
            orders,
            fresh,
        })
    }

    /// From now on this mode runs: its bindings are handlers. Nothing else changes. This looks at
    /// the mode's own bindings, and at the handlers of their events, alone.
    pub fn add_owner(&mut self, mode: ModeId)
        requires { mode.0 < length self.old.plan.modes }
        ensures { self.new ≡ set_running self.old mode true }
    {
        let Handlers {
            plan,
            running,
            places_of_modes,
            orders,
            fresh,
        } = self;
        if running[mode.0 as usize] {
            return;
        }
        let mut rest = places_of_modes[mode.0 as usize].as_slice();
        'groups: while !rest.is_empty() {
            let (group, after) = rest.split_at(of_one_event(plan, rest));
            add_group(orders, fresh, plan, group);
            rest = after;
        }
        running[mode.0 as usize] = true;
    }

    /// From now on this mode does not run. Nothing else changes. This looks at the mode's own
    /// bindings, and at the handlers of their events, alone.
    pub fn drop_owner(&mut self, mode: ModeId)
        requires { mode.0 < length self.old.plan.modes }
        ensures { self.new ≡ set_running self.old mode false }
    {
        let Handlers {
            plan,
            running,
            places_of_modes,
            orders,
            fresh,
        } = self;
        if !running[mode.0 as usize] {
            return;
        }
        let mut rest = places_of_modes[mode.0 as usize].as_slice();
        'groups: while !rest.is_empty() {
            let (group, after) = rest.split_at(of_one_event(plan, rest));
            drop_group(orders, fresh, plan, group);
            rest = after;
        }
        running[mode.0 as usize] = false;
    }

    /// The place of the `k`-th handler of an event, counted from 0, in plan order: higher
    /// priorities first, and of equal ones the lower place. None if the event has fewer handlers,
    /// or the plan has no such event.
    pub fn nth(&self, event: EventId, k: usize) -> Option<BindingId>
        ensures handler { result ≡ slice_get (in_order self.now.plan self.now.running event) k }
        ensures within { IfSome result (λ b. b.0 < length self.now.plan.bindings) }
    {
        self.handlers(event).get(k).copied()
    }

    /// The places of the handlers of an event, in plan order: none if the plan has no such
    /// event.
    fn handlers(&self, event: EventId) -> &[BindingId]
        ensures places { result.now ≡ in_order self.now.plan self.now.running event }
        ensures within { All (λ p. p.0 < length self.now.plan.bindings) result.now }
    {
        match self.orders.get(event.0 as usize) {
            Some(order) => order,
            None => &[],
        }
    }
}
