//! The work bound of a machine, before it runs.

ghost use Rattle.std.specs.Prelude.{◌≡◌, ◌≢◌, ◌⊎◌, true, false, IfOk, IfErr, OnOk};
ghost use Rattle.std.specs.Io.KnownBytes.{Appends, Keeps};
ghost use Rattle.cascade_rank.specs.Working.{IsBoundOf, work_bound_of};
ghost use Rattle.live_machine.specs.Work.{TellsWork, AdmitsWork, work_text, refusal_text, is_admitted};

use cascade_rank::{WorkBound, work_bound};
use pinball_shell::{ShellFault, Verdict};
use std::alloc::Global;
use std::io::{self, Write};
use written_machine::Checked;

/// A machine runs live if its work bound is at most this.
pub const MOST_STEPS: u64 = 1_000_000;

/// Tells the work bound: `work N`, or `work beyond` if it is 2^64 - 1 or more. After each error but
/// `Write` nothing has been written.
///
/// # Errors
///
/// - `NoMemory`: memory ran out.
/// - `Write`: the writer failed.
pub fn tell_work<W: Write>(
    alloc: Global,
    checked: &Checked,
    writer: &mut W,
) -> Result<Verdict, ShellFault>
    ensures tells { OnOk result (TellsWork checked.now.plan (W.contents writer.old) (W.contents writer.new)) }
    ensures verdict { IfOk result (λ verdict. verdict ≡ Verdict.Yes) }
    ensures silent { IfErr result (λ e. e ≢ ShellFault.Write → Keeps (W.contents writer.old) (W.contents writer.new)) }
    ensures fails { IfErr result (λ e. (e ≡ ShellFault.NoMemory) ⊎ (e ≡ ShellFault.Write)) }
{
    let bound = bound_of(alloc, checked)?;
    match write_work(bound, writer) {
        Ok(()) => Ok(Verdict::Yes),
        Err(_) => Err(ShellFault::Write),
    }
}

/// Whether a machine may run live: its work bound is at most 1,000,000. If it is not, this tells so,
/// in two lines. After each error but `Write` nothing has been written.
///
/// # Errors
///
/// As of [`tell_work`].
pub fn admits<W: Write>(
    alloc: Global,
    checked: &Checked,
    writer: &mut W,
) -> Result<bool, ShellFault>
    ensures tells { IfOk result (λ yes. AdmitsWork checked.now.plan yes (W.contents writer.old)
        (W.contents writer.new)) }
    ensures silent { IfErr result (λ e. e ≢ ShellFault.Write → Keeps (W.contents writer.old) (W.contents writer.new)) }
    ensures fails { IfErr result (λ e. (e ≡ ShellFault.NoMemory) ⊎ (e ≡ ShellFault.Write)) }
{
    let bound = bound_of(alloc, checked)?;
    if is_admitted(bound) {
        return Ok(true);
    }
    match write_refusal(bound, writer) {
        Ok(()) => Ok(false),
        Err(_) => Err(ShellFault::Write),
    }
}

/// The work bound. A checked plan has no cycle, so there is one.
fn bound_of(alloc: Global, checked: &Checked) -> Result<WorkBound, ShellFault>
    ensures bound { IfOk result (λ bound. IsBoundOf (work_bound_of checked.now.plan) bound) }
    ensures fails { IfErr result (λ e. e ≡ ShellFault.NoMemory) }
{
    match work_bound(alloc, checked.plan()) {
        Ok(bound) => Ok(bound),
        Err(_) => Err(ShellFault::NoMemory),
    }
}

/// Whether this is at most 1,000,000.
fn is_admitted(bound: WorkBound) -> bool
    ensures { result ≡ is_admitted bound }
{
    match bound {
        WorkBound::Within(steps) => steps <= MOST_STEPS,
        WorkBound::Beyond => false,
    }
}

fn write_work<W: Write>(bound: WorkBound, writer: &mut W) -> io::Result<()>
    ensures { OnOk result (Appends (W.contents writer.old) (W.contents writer.new) (work_text bound)) }
{
    match bound {
        WorkBound::Within(steps) => writeln!(writer, "work {steps}"),
        WorkBound::Beyond => writer.write_all(b"work beyond\n"),
    }
}

/// Writes the work bound, and that it is too much.
fn write_refusal<W: Write>(bound: WorkBound, writer: &mut W) -> io::Result<()>
    ensures { OnOk result (Appends (W.contents writer.old) (W.contents writer.new) (refusal_text bound)) }
{
    write_work(bound, writer)?;
    writer.write_all(b"refused: the work bound is above 1000000 (--any-work lifts this)\n")
}
