//! The names of texts, as faults have them.

ghost use Rattle.std.specs.Prelude.{◌≡◌, not, IfOk, OnOk};
ghost use Rattle.std.specs.List.{list_any};
ghost use Rattle.std.specs.Io.KnownBytes.{Appends};
ghost use Rattle.mpf_config.specs.Escaped.{escape_bytes};
ghost use Rattle.row_faults.specs.Plain.{is_mark, is_plain};

use mpf_config::write_escaped;
use std::alloc::{AllocError, Global};
use std::io::{self, Write};
use std::rc::Rc;

/// The letters of a name, and what is known of them.
#[derive(Drop)]
#[derive_where(Debug, PartialEq, Eq, Hash)]
struct Letters {
    bytes: Vec<u8>,
    /// Whether they are printed as they are, and as one word.
    #[derive_where(skip)]
    plain: bool,
    ghost same: { plain ≡ is_plain bytes.items },
}

/// The name of a text. All faults of the text share its letters, and each has one pointer to them.
#[derive(Drop)]
#[derive_where(Debug, PartialEq, Eq, Hash)]
pub struct TextName {
    letters: Rc<Letters>,
}

impl TextName {
    ghost use Rattle.row_faults.specs.View.{letters_of};

    /// The name with these letters.
    ///
    /// # Errors
    ///
    /// Memory ran out.
    pub fn new(alloc: Global, letters: &[u8]) -> Result<Self, AllocError>
        ensures { IfOk result (λ name. letters_of name ≡ letters.now) }
    {
        let plain = is_plain(letters);
        let bytes = Vec::from_slice(alloc, letters)?;
        let letters = Rc::new(alloc, Letters { bytes, plain })?;
        Ok(TextName { letters })
    }

    /// The same name, with the same letters.
    pub(crate) fn share(&self) -> Result<Self, AllocError>
        ensures { IfOk result (λ name. letters_of name ≡ letters_of self.now) }
    {
        let letters = self.letters.clone()?;
        Ok(TextName { letters })
    }

    /// Its letters.
    pub fn as_bytes(&self) -> &[u8]
        ensures { result.now ≡ letters_of self.now }
    {
        &self.letters.bytes
    }

    /// Whether it is printed as it is, and as one word.
    pub(crate) fn is_plain(&self) -> bool
        ensures { result ≡ is_plain (letters_of self.now) }
    {
        self.letters.plain
    }

    /// Writes it as a report has it.
    pub(crate) fn write<W: Write>(&self, writer: &mut W) -> io::Result<()>
        ensures { OnOk result (Appends (W.contents writer.old) (W.contents writer.new)
            (escape_bytes (letters_of self.now))) }
    {
        if self.is_plain() {
            return writer.write_all(self.as_bytes());
        }
        write_escaped(self.as_bytes(), writer)
    }
}

/// Whether none of these bytes is a space, and none is to be escaped.
fn is_plain(letters: &[u8]) -> bool
    ensures { result ≡ is_plain letters.now }
{
    !has_mark(letters)
}

fn has_mark(letters: &[u8]) -> bool
    ensures { result ≡ list_any is_mark letters.now }
{
    letters.iter().any(|byte| is_mark(*byte))
}

fn is_mark(byte: u8) -> bool
    ensures { result ≡ is_mark byte }
{
    byte <= b' ' || byte == 127
}
