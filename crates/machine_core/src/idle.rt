//! The events at which nothing is done.

ghost use Rattle.std.specs.Prelude.{◌<◌, IfOk, IsTrue, length};
ghost use Rattle.machine_core.specs.Idle.{AreIdle, IsIdle};

use plan_tables::{EventId, Plan, Work};
use std::alloc::{AllocError, Global};

/// For each event of a plan whether it is idle: nothing is bound to it, and the machine itself does
/// nothing at it. Fails only by memory.
pub fn idle_events(alloc: Global, plan: &Plan) -> Result<Vec<bool>, AllocError>
    ensures { IfOk result (λ marks. AreIdle plan.now marks.items) }
{
    let mut marks = Vec::with_capacity(alloc, plan.event_count())?;
    for number in 0..plan.event_count() {
        let mark = is_idle(plan, EventId(number as u16));
        marks.push(mark)?;
    }
    Ok(marks)
}

/// Whether an event of the plan is idle.
fn is_idle(plan: &Plan, event: EventId) -> bool
    requires { event.0 < length plan.now.events }
    ensures { IsTrue result → IsIdle plan.now event }
{
    match plan.work(event) {
        Work::Nothing => plan.bindings_of(event).is_empty(),
        Work::Mode(_, _) | Work::Game(_) => false,
    }
}
