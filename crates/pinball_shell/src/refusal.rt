//! Why a line of a log is not played, and the line that says so.

ghost use Rattle.std.specs.Prelude.{◌≡◌, OnOk};
ghost use Rattle.std.specs.Io.KnownBytes.{Appends};
ghost use Rattle.trace_lines.specs.Pages.{Puts};
ghost use Rattle.pinball_shell.specs.TraceText.{refusal_number, refusal_name, refused_text};
ghost use Rattle.pinball_shell.specs.declared.refusal.LogRefusal.TheVariants as refusals;

use pin_rig::StepFault;
use std::io::{self, Write};
use trace_lines::{Page, WriteFailed};

/// Why a line of a log is not played.
#[derive(Clone, Copy)]
pub enum LogRefusal {
    /// It asks for a stimulus that may not come.
    Step(StepFault),
    /// It is no line of a log.
    BadLine,
}

impl LogRefusal {
    /// The number with which it is printed.
    pub fn number(self) -> u32
        ensures { result ≡ refusal_number self }
    {
        match self {
            LogRefusal::Step(fault) => fault.number(),
            LogRefusal::BadLine => 8,
        }
    }

    /// The name with which it is printed.
    pub fn name(self) -> &'static str
        ensures { result.now ≡ refusal_name self }
    {
        match self {
            LogRefusal::Step(fault) => fault.name(),
            LogRefusal::BadLine => "BadLine",
        }
    }
}

impl From<StepFault> for LogRefusal {
    ghost from_gives = { λ fault refusal. refusal ≡ refusals.Step fault };

    fn from(fault: StepFault) -> LogRefusal {
        LogRefusal::Step(fault)
    }
}

/// Writes what is on the page, and then that the line of this number is refused.
pub fn put_refused<W: Write>(
    line: usize,
    refusal: LogRefusal,
    page: &mut Page,
    writer: &mut W,
) -> Result<(), WriteFailed>
    ensures { OnOk result (Puts (W.contents writer.old) page.old (W.contents writer.new) page.new
        (refused_text line refusal)) }
{
    page.write_out(writer)?;
    write_refused(line, refusal, writer).map_err(|_| WriteFailed)
}

/// Writes that the line of this number is refused.
fn write_refused<W: Write>(line: usize, refusal: LogRefusal, writer: &mut W) -> io::Result<()>
    ensures { OnOk result (Appends (W.contents writer.old) (W.contents writer.new) (refused_text line refusal)) }
{
    writeln!(
        writer,
        "refused {line} {} {}",
        refusal.number(),
        refusal.name()
    )
}
