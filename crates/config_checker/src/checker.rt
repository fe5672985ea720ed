//! The checker.

ghost use Rattle.std.specs.Prelude.{◌≡◌, [], Ok, IfOk, OnOk, IfErr};
ghost use Rattle.mpf_plan.specs.PlanOf.{plan_at};
ghost use Rattle.cascade_rank.specs.Weights.{IsLeastFitting};
ghost use Rattle.written_machine.specs.Accepted.{IsAccepted};
ghost use Rattle.written_machine.specs.GoodRun.{IsGood};
ghost use Rattle.config_checker.specs.CertificateText.{IsCertificateText};
ghost use Rattle.config_checker.specs.View.{AreOfRows};
ghost use Rattle.config_checker.specs.Checking.{faults_of_rows};
ghost use Rattle.config_checker.specs.Refused.{IsLimitFault, ReportsNoPlan, ReportsOne, ReportsOwn};
ghost use Rattle.config_checker.specs.OfConfig.{ChecksConfig, ChecksConfigWith, IsPlanOf, HasNoFaults, ReportsFaultsOf};
ghost use Rattle.config_checker.specs.OfConfig.{ReportsFaultsWith, ReportsWithoutPlan};

use crate::certified::certify;
use crate::report::{CheckFault, Report};
use crate::reporting::{named_fault, report_of};
use cascade_rank::find_bounded;
use machine_definitions::Definitions;
use mpf_config::config::Config;
use mpf_plan::{PlanFault, plan_complete};
use plan_tables::Plan;
use row_faults::{RowFault, faults_of_rows};
use std::alloc::{AllocError, Global};
use written_machine::Checked;

/// Checks a configuration. What it accepts has a plan, the least weights that fit it, and their
/// bound; and every run of the plan is good.
///
/// # Errors
///
/// If rows have faults of their own, the report lists them all, each as a `Row` (see
/// [`RowFaultKind`](row_faults::RowFaultKind)). They come by text, first the machine text and then
/// the modes' as listed; in a text by line, on a line by number, and then as written. Those that
/// print the same line are listed once.
///
/// Otherwise it lists one fault, the first of these:
///
/// - `Limit`: a table is above its limit; the first such table is reported.
/// - `Cycle`: events lead to each other without end, so no weights fit.
/// - `Bound`: one of the least weights or their bound is above 100,000.
///
/// `NoMemory`: memory ran out.
pub fn check(alloc: Global, config: &Config) -> Result<Checked, Report>
    ensures exact { ChecksConfig config.now result }
    ensures plan { IfOk result (λ c. IsPlanOf config.now c.plan) }
    ensures accepted { IfOk result (λ c. IsAccepted c) }
    ensures least { IfOk result (λ c. IsLeastFitting c.plan c.weights) }
    ensures good { IfOk result (λ c. IsGood c) }
    ensures refused { IfErr result (ReportsFaultsOf config.now) }
{
    let plan = plan_of(alloc, config)?;
    match find_bounded(alloc, &plan) {
        Ok((weights, bound)) => Ok(Checked::new(plan, weights, bound.0)),
        Err(fault) => Err(report_of(alloc, named_fault(alloc, &plan, fault)?)),
    }
}

/// Checks a configuration with a certificate of version 1 or 2. What it accepts has a plan, the
/// weights of the certificate, whichever they are, and their bound; and every run of the plan is
/// good.
///
/// # Errors
///
/// If rows have faults of their own, the report lists them all, each as a `Row` (see
/// [`RowFaultKind`](row_faults::RowFaultKind)). They come by text, first the machine text and then
/// the modes' as listed; in a text by line, on a line by number, and then as written. Those that
/// print the same line are listed once.
///
/// Otherwise it lists one fault, the first of these:
///
/// - `Limit`: a table is above its limit; the first such table is reported.
/// - `Certificate(Line)`: the text is no certificate.
/// - `Certificate(Events)`: its events are not those of the plan.
/// - `Certificate(Switches)`: it is of version 2, and its switches are not those of the plan.
/// - `Certificate(Short)`: an event weighs less than it needs.
/// - `Bound`: a weight or the bound is above 100,000.
/// - `Certificate(Bound)`: it states another bound than that of its weights.
/// - `Certificate(Switch)`: it is of version 2, and states another cost of a switch than its weights
///   give; the first such switch is reported.
///
/// `NoMemory`: memory ran out.
pub fn check_with(alloc: Global, config: &Config, certificate: &[u8]) -> Result<Checked, Report>
    ensures exact { ChecksConfigWith certificate.now config.now result }
    ensures plan { IfOk result (λ c. IsPlanOf config.now c.plan) }
    ensures accepted { IfOk result (λ c. IsAccepted c) }
    ensures text { IfOk result (λ c. IsCertificateText c certificate.now) }
    ensures good { IfOk result (λ c. IsGood c) }
    ensures refused { IfErr result (ReportsFaultsWith certificate.now config.now) }
{
    let plan = plan_of(alloc, config)?;
    let (weights, bound) = certify(alloc, &plan, certificate)?;
    Ok(Checked::new(plan, weights, bound.0))
}

/// The plan of a configuration, or the report of why it has none.
fn plan_of(alloc: Global, config: &Config) -> Result<Plan, Report>
    ensures none { OnOk result (HasNoFaults config.now) }
    ensures plan { IfOk result (IsPlanOf config.now) }
    ensures refused { IfErr result (ReportsWithoutPlan config.now) }
{
    let definitions = Definitions::new(alloc, config)?;
    plan_of_definitions(alloc, &definitions)
}

/// The same, of the configuration that these definitions are of.
fn plan_of_definitions(alloc: Global, definitions: &Definitions<'_>) -> Result<Plan, Report>
    ensures none { OnOk result (faults_of_rows definitions.now ≡ []) }
    ensures plan { IfOk result (λ plan. plan_at definitions.now ≡ Ok plan) }
    ensures refused { IfErr result (λ report. ReportsNoPlan definitions.now report) }
{
    refuse_own(alloc, definitions)?;
    plan_within(alloc, definitions)
}

/// Refuses definitions whose rows have faults of their own.
fn refuse_own(alloc: Global, definitions: &Definitions<'_>) -> Result<(), Report>
    ensures none { OnOk result (faults_of_rows definitions.now ≡ []) }
    ensures own { IfErr result (λ report. ReportsOwn definitions.now report) }
{
    let own = faults_of_rows(alloc, definitions)?;
    if own.is_empty() {
        return Ok(());
    }
    let faults = faults_of(alloc, own)?;
    Err(Report::Faults(faults))
}

/// How many faults are moved from one list to another before the first one gives room back.
const AT_ONCE: usize = 4_096;

/// Faults of rows as faults of a configuration. Both lists may be very long, so the first one gives
/// its room back as the other one grows.
fn faults_of(alloc: Global, own: Vec<RowFault>) -> Result<Vec<CheckFault>, AllocError>
    ensures { IfOk result (λ faults. AreOfRows own.items faults.items) }
{
    let mut faults = Vec::with_capacity(alloc, own.len())?;
    let mut rest = own;
    rest.reverse();
    while let Some(fault) = rest.pop() {
        faults.push(CheckFault::Row(fault))?;
        if rest.len() % AT_ONCE == 0 {
            rest.shrink_to_fit();
        }
    }
    Ok(faults)
}

/// The plan of definitions whose rows have no faults of their own, or the report of the table that is
/// above its limit.
fn plan_within(alloc: Global, definitions: &Definitions<'_>) -> Result<Plan, Report>
    requires { faults_of_rows definitions.now ≡ [] }
    ensures plan { IfOk result (λ plan. plan_at definitions.now ≡ Ok plan) }
    ensures limit { IfErr result (λ report. ReportsOne (IsLimitFault definitions.now) report) }
{
    match plan_complete(alloc, definitions) {
        Ok(plan) => Ok(plan),
        Err(PlanFault::NoMemory) => Err(Report::NoMemory),
        Err(PlanFault::NoSuchName) => unreachable!(),
        Err(PlanFault::Limit(table)) => Err(report_of(alloc, CheckFault::Limit(table))),
    }
}
