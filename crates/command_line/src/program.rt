//! The words that a program is given, and what it says to words that it does not understand.

ghost use Rattle.std.specs.Prelude.{◌≡◌, OnOk};
ghost use Rattle.std.specs.Io.KnownBytes.{Appends};
ghost use Rattle.command_line.specs.NotAsked.{status_of, text_of};

use crate::ask::AskFault;
use std::env;
use std::io::{self, ErrorKind, Write};
use std::rt::Env;

/// The words after the program's name. Which they are, no contract can say.
///
/// # Errors
///
/// - `Usage`: one of them is not UTF-8.
/// - `NoMemory`: memory ran out.
pub fn program_words<R: Env + AllocGlobal>(rt: &R) -> Result<Vec<String>, AskFault> {
    match env::args(rt) {
        Ok(words) => Ok(words.skip(1).collect(rt.alloc())?),
        Err(error) if error.kind() == ErrorKind::OutOfMemory => Err(AskFault::NoMemory),
        Err(_) => Err(AskFault::Usage(String::from_str(
            rt.alloc(),
            "error: an argument is not UTF-8\n",
        )?)),
    }
}

impl AskFault {
    /// The exit status: 2 if the words ask for nothing that can be done, and 3 if memory ran out.
    pub fn status(&self) -> u8
        ensures { result ≡ status_of self.now }
    {
        match self {
            AskFault::Usage(_) => 2,
            AskFault::NoMemory => 3,
        }
    }

    /// Writes what the program says on standard error.
    pub fn write<W: Write>(&self, writer: &mut W) -> io::Result<()>
        ensures { OnOk result (Appends (W.contents writer.old) (W.contents writer.new) (text_of self.now)) }
    {
        match self {
            AskFault::Usage(text) => writer.write_all(text.as_bytes()),
            AskFault::NoMemory => writer.write_all(b"fault: NoMemory\n"),
        }
    }
}
