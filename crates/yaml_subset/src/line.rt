//! A line with content.

ghost use Rattle.std.specs.Prelude.{◌≡◌, drop, length};

use crate::fault::TextFaultKind;
use crate::place::Halt;

/// A line of a text, read from a column on.
#[derive(Clone, Copy)]
pub struct TextLine<'a> {
    /// The number of the line, counted from 1.
    pub number: u32,
    /// The column from which on it is read: the number of spaces at its front.
    pub indent: usize,
    /// The bytes of the whole line, without its end.
    pub raw: &'a [u8],
}

impl<'a> TextLine<'a> {
    /// What comes from the column on.
    pub fn text(&self) -> &'a [u8]
        ensures { result.now ≡ drop self.now.indent self.now.raw.now }
    {
        let raw = self.raw;
        if self.indent < raw.len() {
            let (_, text) = raw.split_at(self.indent);
            text
        } else {
            &[]
        }
    }

    /// The error that the line has a fault of a kind at its beginning.
    pub fn fault(&self, kind: TextFaultKind) -> Halt
        ensures { result ≡ Halt.At (record
            { kind = kind; line = self.now.number; bytes_left = length (drop self.now.indent self.now.raw.now) }) }
    {
        Halt::at(kind, self.number, self.text().len())
    }
}
