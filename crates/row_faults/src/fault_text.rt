//! The line of a fault of rows in a report.

ghost use Rattle.std.specs.Prelude.{◌≡◌, ◌++◌, ◌∷◌, [], OnOk};
ghost use Rattle.std.specs.Fmt.{decimal};
ghost use Rattle.std.specs.Io.KnownBytes.{Appends};
ghost use Rattle.mpf_config.specs.FaultLine.{with_blank};
ghost use Rattle.row_faults.specs.FaultText.{row_title, row_fault_line};
ghost use Rattle.row_faults.specs.FaultsOf.{title_text};
ghost use Rattle.row_faults.specs.View.{row_fault_view};

use crate::fault::{RowFault, RowFaultKind};
use itoa::write_digits;
use std::io::{self, Write};

/// Writes the line of a fault.
///
/// # Errors
///
/// The writer's error. Any part of the line may have been written then.
pub fn write_row_fault<W: Write>(fault: &RowFault, writer: &mut W) -> io::Result<()>
    ensures { OnOk result (Appends (W.contents writer.old) (W.contents writer.new)
        (row_fault_line (row_fault_view fault.now))) }
{
    // few pieces, since a report may have very many faults
    write_title(fault.kind, writer)?;
    fault.text.write(writer)?;
    write_number(fault.line, writer)?;
    writer.write_all(&fault.name)?;
    writer.write_all(b"\n")
}

/// Writes the number and the name of a fault of a row, and a space.
fn write_title<W: Write>(kind: RowFaultKind, writer: &mut W) -> io::Result<()>
    ensures { OnOk result (Appends (W.contents writer.old) (W.contents writer.new) (row_title kind ++ 32 ∷ [])) }
{
    writer.write_all(title_of(kind))
}

/// Its number and its name, and a space.
fn title_of(kind: RowFaultKind) -> &'static [u8]
    ensures { result.now ≡ title_text kind }
{
    match kind {
        RowFaultKind::Name => b"fault 1 Name ",
        RowFaultKind::PulseLimit => b"fault 2 PulseLimit ",
        RowFaultKind::PowerLimit => b"fault 3 PowerLimit ",
        RowFaultKind::HoldNotAllowed => b"fault 4 HoldNotAllowed ",
        RowFaultKind::TimerAtEnd => b"fault 5 TimerAtEnd ",
        RowFaultKind::BallRoute => b"fault 6 BallRoute ",
    }
}

/// The most digits of a number below 2^32.
const DIGITS: usize = 10;

/// Writes the number of a line, between spaces.
fn write_number<W: Write>(line: u32, writer: &mut W) -> io::Result<()>
    ensures { OnOk result (Appends (W.contents writer.old) (W.contents writer.new)
        (with_blank (decimal line) ++ 32 ∷ [])) }
{
    let mut room = [b' '; DIGITS + 1];
    let start = write_digits(line.into(), &mut room, DIGITS);
    writer.write_all(b" ")?;
    writer.write_all(&room[start..])
}
