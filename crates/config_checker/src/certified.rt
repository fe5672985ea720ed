//! A certificate, judged for a plan.

ghost use Rattle.std.specs.Prelude.{◌≡◌, None, IfOk, IfSome, length};
ghost use Rattle.plan_tables.specs.declared.table.Table.TheVariants.{Switches};
ghost use Rattle.plan_tables.specs.Limits.{entry_names};
ghost use Rattle.cascade_rank.specs.Weights.{IsWithinLimit};
ghost use Rattle.config_checker.specs.CertificateRead.{stated_names, stated_numbers, stated_switches};
ghost use Rattle.config_checker.specs.CertificateRead.{wrong_stated_names, wrong_stated_cost, FindsNamedCost};
ghost use Rattle.config_checker.specs.CertificateRead.{judged_lines};
ghost use Rattle.config_checker.specs.Certified.{as_checked};
ghost use Rattle.config_checker.specs.Checking.{same_names, wrong_cost as wrong_cost_of, certified_plan};
ghost use Rattle.config_checker.specs.Checking.{reported_alone};
ghost use Rattle.config_checker.specs.View.{GivesChecked, ReportsAlone, FindsWrong};

use crate::certificate_reader::{CertificateLine, CertificateLines, ReadFault, read_certificate};
use crate::report::{CertificateFault, CheckFault, Report};
use crate::reporting::{named_fault, report_of};
use cascade_rank::{Bound, Weights, switch_cost, verify};
use plan_tables::{EventId, Plan, SwitchId};
use std::alloc::{AllocError, Global};

/// The weights and the bound of a certificate, if it is one of the plan; or what is wrong with it.
pub(crate) fn certify(alloc: Global, plan: &Plan, text: &[u8]) -> Result<(Weights, Bound), Report>
    ensures { GivesChecked (as_checked plan.now result) (reported_alone (certified_plan text.now plan.now)) }
{
    let lines = match read_certificate(alloc, text) {
        Ok(lines) => lines,
        Err(ReadFault::NoMemory) => return Err(Report::NoMemory),
        Err(ReadFault::Line(number)) => return Err(refusal(alloc, CertificateFault::Line(number))),
    };
    match wrong_names(plan, &lines) {
        Some(fault) => Err(refusal(alloc, fault)),
        None => judge(alloc, plan, &lines),
    }
}

/// The weights and the bound of a certificate with the names of the plan, if they serve and are
/// right; or what is wrong with them.
fn judge(
    alloc: Global,
    plan: &Plan,
    lines: &CertificateLines<'_>,
) -> Result<(Weights, Bound), Report>
    requires { wrong_stated_names plan.now lines.now ≡ None }
    ensures { GivesChecked (as_checked plan.now result) (reported_alone (judged_lines plan.now lines.now)) }
{
    let weights = weights_of(alloc, &lines.events)?;
    let bound = match verify(plan, &weights) {
        Ok(bound) => bound,
        Err(fault) => return Err(report_of(alloc, named_fault(alloc, plan, fault)?)),
    };
    if bound.0 != lines.bound {
        return Err(refusal(alloc, CertificateFault::Bound(bound.0)));
    }
    match wrong_cost(plan, &weights, &lines.switches) {
        None => Ok((weights, bound)),
        Some((name, cost)) => Err(refusal(
            alloc,
            CertificateFault::Switch(name.to_vec(alloc)?, cost),
        )),
    }
}

/// The report of what is wrong with a certificate.
fn refusal(alloc: Global, fault: CertificateFault) -> Report
    ensures { ReportsAlone result (CheckFault.Certificate fault) }
{
    report_of(alloc, CheckFault::Certificate(fault))
}

/// What is wrong with the names of a certificate: other events than those of the plan, or else
/// other switches.
fn wrong_names(plan: &Plan, lines: &CertificateLines<'_>) -> Option<CertificateFault>
    ensures { FindsWrong result (wrong_stated_names plan.now lines.now) }
{
    if !are_events(plan, &lines.events) {
        return Some(CertificateFault::Events);
    }
    let Some(switches) = &lines.switches else {
        return None;
    };
    if are_switches(plan, switches) {
        None
    } else {
        Some(CertificateFault::Switches)
    }
}

/// Whether these are the plan's events, in the order of their numbers.
fn are_events(plan: &Plan, lines: &[CertificateLine<'_>]) -> bool
    ensures { result ≡ same_names plan.now.events (stated_names lines.now) }
{
    if lines.len() != plan.event_count() {
        return false;
    }
    for (number, line) in lines.iter().enumerate() {
        if plan.event_name(EventId(number as u16)) != line.name {
            return false;
        }
    }
    true
}

/// Whether these are the plan's switches, in the order of their numbers.
fn are_switches(plan: &Plan, lines: &[CertificateLine<'_>]) -> bool
    ensures { result ≡ same_names (entry_names plan.now Switches) (stated_names lines.now) }
{
    if lines.len() != plan.switch_count() {
        return false;
    }
    for (number, line) in lines.iter().enumerate() {
        if plan.switch_name(SwitchId(number as u16)) != line.name {
            return false;
        }
    }
    true
}

/// The numbers of the lines, as weights.
fn weights_of(alloc: Global, lines: &[CertificateLine<'_>]) -> Result<Weights, AllocError>
    ensures { IfOk result (λ weights. weights ≡ stated_numbers lines.now) }
{
    let mut weights = Vec::with_capacity(alloc, lines.len())?;
    for line in lines {
        weights.push(line.number)?;
    }
    Ok(Weights::of(weights))
}

/// The first switch whose stated cost is wrong at these weights, by its name, and its right cost.
fn wrong_cost<'a>(
    plan: &Plan,
    weights: &Weights,
    switches: &Option<Vec<CertificateLine<'a>>>,
) -> Option<(&'a [u8], u32)>
    requires weights { length weights.now ≡ length plan.now.events }
    requires limit { IsWithinLimit plan.now weights.now }
    requires switches { IfSome switches.now (λ lines. length lines.items ≡ length plan.now.switches) }
    ensures { FindsNamedCost result (wrong_cost_of plan.now weights.now (stated_switches switches.now)) }
{
    match switches {
        None => None,
        Some(switches) => first_other(plan, weights, switches),
    }
}

/// The first of the plan's switches whose stated cost is wrong at these weights, by its name, and
/// its right cost.
fn first_other<'a>(
    plan: &Plan,
    weights: &Weights,
    switches: &[CertificateLine<'a>],
) -> Option<(&'a [u8], u32)>
    requires weights { length weights.now ≡ length plan.now.events }
    requires limit { IsWithinLimit plan.now weights.now }
    requires switches { length switches.now ≡ length plan.now.switches }
    ensures { FindsNamedCost result (wrong_stated_cost plan.now weights.now switches.now) }
{
    for number in 0..plan.switch_count() {
        let line = switches[number];
        let cost = switch_cost(plan, weights, SwitchId(number as u16));
        if line.number != cost {
            return Some((line.name, cost));
        }
    }
    None
}
