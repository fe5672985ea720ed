//! The report of a refused configuration, as a text.

ghost use Rattle.std.specs.Prelude.{OnOk, map};
ghost use Rattle.std.specs.Io.KnownBytes.{Appends};
ghost use Rattle.config_checker.specs.View.{text_of_faults, text_of_fault, text_of_certificate_fault};
ghost use Rattle.config_checker.specs.FaultView.{cycle};
ghost use Rattle.config_checker.specs.ReportText.{report_line};

use crate::report::{CertificateFault, CheckFault};
use row_faults::write_row_fault;
use std::io::{self, Write};

/// Writes a line for each fault, in order.
///
/// # Errors
///
/// The writer's error. Any part of the text may have been written then.
pub fn write_report<W: Write>(faults: &[CheckFault], writer: &mut W) -> io::Result<()>
    ensures { OnOk result (Appends (W.contents writer.old) (W.contents writer.new) (text_of_faults faults.now)) }
{
    for fault in faults {
        write_fault(fault, writer)?;
    }
    Ok(())
}

/// Writes the line of a fault.
///
/// # Errors
///
/// The writer's error. Any part of the line may have been written then.
pub(crate) fn write_fault<W: Write>(fault: &CheckFault, writer: &mut W) -> io::Result<()>
    ensures { OnOk result (Appends (W.contents writer.old) (W.contents writer.new) (text_of_fault fault.now)) }
{
    match fault {
        CheckFault::Row(fault) => write_row_fault(fault, writer),
        CheckFault::Limit(table) => writeln!(writer, "fault 7 Limit {}", table.name()),
        CheckFault::Cycle(events) => write_cycle(events, writer),
        CheckFault::Bound => writeln!(writer, "fault 9 Bound"),
        CheckFault::Certificate(fault) => {
            writer.write_all(b"fault 10 Certificate ")?;
            write_certificate_fault(fault, writer)?;
            writer.write_all(b"\n")
        }
    }
}

fn write_cycle<W: Write>(events: &[Vec<u8>], writer: &mut W) -> io::Result<()>
    ensures { OnOk result (Appends (W.contents writer.old) (W.contents writer.new)
        (report_line (cycle (map (λ v. v.items) events.now)))) }
{
    writer.write_all(b"fault 8 Cycle")?;
    for event in events {
        writer.write_all(b" ")?;
        writer.write_all(event)?;
    }
    writer.write_all(b"\n")
}

fn write_certificate_fault<W: Write>(fault: &CertificateFault, writer: &mut W) -> io::Result<()>
    ensures { OnOk result (Appends (W.contents writer.old) (W.contents writer.new)
        (text_of_certificate_fault fault.now)) }
{
    match fault {
        CertificateFault::Line(number) => write!(writer, "Line {number}"),
        CertificateFault::Events => writer.write_all(b"Events"),
        CertificateFault::Switches => writer.write_all(b"Switches"),
        CertificateFault::Short(event, need) => {
            let need: u128 = **need;
            writer.write_all(b"Short ")?;
            writer.write_all(event)?;
            write!(writer, " {need}")
        }
        CertificateFault::Bound(bound) => write!(writer, "Bound {bound}"),
        CertificateFault::Switch(switch, cost) => {
            writer.write_all(b"Switch ")?;
            writer.write_all(switch)?;
            write!(writer, " {cost}")
        }
    }
}
