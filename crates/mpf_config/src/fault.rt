//! Why a bundle has no rows.

ghost use Rattle.std.specs.Prelude.{OnOk};
ghost use Rattle.std.specs.Io.KnownBytes.{Appends};
ghost use Rattle.mpf_config.specs.FaultLine.{fault_line};
ghost use Rattle.mpf_config.specs.View.{rows_fault_view};

use crate::escape::write_escaped;
pub use config_faults::{BundleFault, BundleFaultKind, ConfigFault};
use std::io::{self, Write};

/// Writes the line of a fault, `error NUMBER NAME TEXT LINE KEY`, the text and the key as
/// [`write_escaped`] does.
///
/// # Errors
///
/// The writer's error. Any part of the line may have been written then.
pub fn write_fault<W: Write>(fault: &BundleFault, writer: &mut W) -> io::Result<()>
    ensures { OnOk result (Appends (W.contents writer.old) (W.contents writer.new)
        (fault_line (rows_fault_view fault.now))) }
{
    write!(
        writer,
        "error {} {} ",
        fault.kind.number(),
        fault.kind.name()
    )?;
    write_escaped(&fault.text, writer)?;
    write!(writer, " {} ", fault.line)?;
    write_escaped(&fault.key, writer)?;
    writer.write_all(b"\n")
}
