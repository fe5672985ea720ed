//! What a report lists.

ghost use Rattle.std.specs.Prelude.{◌≡◌, IfOk, map, length};
ghost use Rattle.std.specs.List.{All};
ghost use Rattle.plan_tables.specs.PlanView.{name_of_event};
ghost use Rattle.plan_tables.specs.Valid.{IsEventWithin};
ghost use Rattle.cascade_rank.specs.View.{IfRank};
ghost use Rattle.config_checker.specs.View.{HasEvents, ReportsAlone, IsWeightsFault};

use crate::report::{CertificateFault, CheckFault, Report};
use cascade_rank::RankFault;
use plan_tables::{EventId, Plan};
use std::alloc::{AllocError, Global};

/// The report of one fault.
pub(crate) fn report_of(alloc: Global, fault: CheckFault) -> Report
    ensures { ReportsAlone result fault }
{
    let mut faults = Vec::new(alloc);
    match faults.push(fault) {
        Ok(()) => Report::Faults(faults),
        Err(_) => Report::NoMemory,
    }
}

/// What is wrong with weights, by the names of the events.
pub(crate) fn named_fault(
    alloc: Global,
    plan: &Plan,
    fault: RankFault,
) -> Result<CheckFault, AllocError>
    requires { IfRank fault (HasEvents plan.now) }
    ensures { IfOk result (IsWeightsFault plan.now fault) }
{
    match fault {
        RankFault::NoMemory => Err(AllocError),
        RankFault::Cycle(events) => Ok(CheckFault::Cycle(names_of(alloc, plan, &events)?)),
        RankFault::BoundTooLarge => Ok(CheckFault::Bound),
        RankFault::Short(event, need) => {
            let name = plan.event_name(event).to_vec(alloc)?;
            let need = Box::new(alloc, need)?;
            Ok(CheckFault::Certificate(CertificateFault::Short(name, need)))
        }
        RankFault::WrongEvents => Ok(CheckFault::Certificate(CertificateFault::Events)),
    }
}

/// The names of events of the plan.
fn names_of(alloc: Global, plan: &Plan, events: &[EventId]) -> Result<Vec<Vec<u8>>, AllocError>
    requires { All (IsEventWithin (length plan.now.events)) events.now }
    ensures { IfOk result (λ names. map (λ v. v.items) names.items ≡ map (name_of_event plan.now) events.now) }
{
    let mut names = Vec::new(alloc);
    for event in events {
        names.push(plan.event_name(*event).to_vec(alloc)?)?;
    }
    Ok(names)
}
