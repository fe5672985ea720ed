//! How a note is printed.

ghost use Rattle.std.specs.Prelude.{◌≡◌, OnOk};
ghost use Rattle.std.specs.Io.KnownBytes.{Appends};
ghost use Rattle.mpf_config.specs.NoteLine.{note_word, note_line};
ghost use Rattle.mpf_config.specs.View.{note_view};

use crate::config::{Note, NoteKind};
use crate::escape::write_escaped;
use std::io::{self, Write};

impl NoteKind {
    /// The word that the kind is printed with.
    pub fn name(&self) -> &'static str
        ensures { result.now ≡ note_word self.now }
    {
        match self {
            NoteKind::Skipped => "skipped",
            NoteKind::Absent => "absent",
            NoteKind::Unlisted => "unlisted",
        }
    }
}

/// Writes the line of a note, `note TEXT LINE WORD NAME`, the text and the name as
/// [`write_escaped`] does.
///
/// # Errors
///
/// The writer's error. Any part of the line may have been written then.
pub fn write_note<W: Write>(note: &Note, writer: &mut W) -> io::Result<()>
    ensures { OnOk result (Appends (W.contents writer.old) (W.contents writer.new) (note_line (note_view note.now))) }
{
    writer.write_all(b"note ")?;
    write_escaped(&note.text, writer)?;
    write!(writer, " {} {} ", note.line, note.kind.name())?;
    write_escaped(&note.name, writer)?;
    writer.write_all(b"\n")
}
