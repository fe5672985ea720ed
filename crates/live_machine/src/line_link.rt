//! A link over a reader of lines and a writer of answers.

ghost use Rattle.std.specs.Prelude.{◌≡◌, [], length, IfOk};
ghost use Rattle.std.specs.Option.{unwrap_or};
ghost use Rattle.yaml_bytes.specs.View.{option_slice};
ghost use Rattle.live_machine.specs.LineLinks.{read_ahead, link_report};

use crate::link::{LONGEST_LINE, Link};
use crate::read_buffer::ReadBuffer;
use pinball_shell::ShellFault;
use std::alloc::{AllocError, Global};
use std::io::{self, Read, Write};
use yaml_bytes::split_line;

/// A link whose lines come from a reader, and whose answers go to a writer. It reads as much as has
/// come, and only if no whole line has. It takes no memory after it was made.
///
/// If it is known what was written and what the reader has, the link reports it: all that was written
/// was told, and what is left is what was read and not heard, and then what the reader has.
#[derive(Drop)]
pub struct LineLink<R: Read + Drop, W: Write + Drop> {
    reader: R,
    writer: W,
    /// What was read and not heard.
    buffer: ReadBuffer,
}

impl<R: Read + Drop, W: Write + Drop> LineLink<R, W> {
    /// A link from which nothing was heard yet.
    ///
    /// # Errors
    ///
    /// Memory ran out.
    pub fn new(alloc: Global, reader: R, writer: W) -> Result<LineLink<R, W>, AllocError>
        ensures { IfOk result (λ l. link_report (W.contents l.writer) (R.remaining l.reader) (read_ahead l.buffer)
            ≡ link_report (W.contents writer) (R.remaining reader) []) }
    {
        Ok(LineLink {
            reader,
            writer,
            buffer: ReadBuffer::new(alloc)?,
        })
    }
}

impl<R: Read + Drop, W: Write + Drop> Link for LineLink<R, W> {
    ghost use Rattle.std.specs.Prelude.{false};

    ghost shows_lines = { false };

    ghost report = { λ l. link_report (W.contents l.writer) (R.remaining l.reader) (read_ahead l.buffer) };

    fn hear(&mut self, room: &mut [u8]) -> Result<Option<usize>, ShellFault> {
        self.buffer.fill_line(&mut self.reader)?;
        let text = self.buffer.bytes();
        if text.is_empty() {
            return Ok(None);
        }
        let (line, after) = split_line(text);
        let len = line.len();
        if len > room.len() || len > LONGEST_LINE {
            return Err(ShellFault::TooLong);
        }
        room[..len].copy_from_slice(line);
        let size = count_after(after);
        self.buffer.keep_last(size);
        Ok(Some(len))
    }

    fn tell(&mut self, text: &[u8]) -> io::Result<usize> {
        self.writer.write(text)
    }
}

/// How many bytes come after a line.
fn count_after(after: Option<&[u8]>) -> usize
    ensures { result ≡ length (unwrap_or (option_slice (λ after. after) after.entry) []) }
{
    match after {
        None => 0,
        Some(after) => after.len(),
    }
}
