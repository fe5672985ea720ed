//! What can go wrong outside of the texts.

ghost use Rattle.std.specs.Prelude.{◌≡◌, None, OnOk, option_map, string_bytes};
ghost use Rattle.std.specs.Io.KnownBytes.{Appends};
ghost use Rattle.pinball_shell.specs.Status.{status_of, fault_name, fault_of_rig, file_at_fault, failure_text};
ghost use Rattle.pinball_shell.specs.declared.fault.ShellFault.TheVariants.{NoMemory, Write};

use pin_rig::RigFault;
use std::alloc::{AllocError, AllocFailed};
use std::io::{self, Write};
use thiserror::Error;
use trace_lines::WriteFailed;

/// Why there is no verdict.
#[derive(Clone, Copy, Debug, PartialEq, Eq, Error)]
#[error("{}", self.name())]
pub enum ShellFault {
    /// Memory ran out.
    NoMemory,
    /// A reader failed.
    Read,
    /// A writer failed.
    Write,
    /// A text is longer than its limit.
    TooLong,
    /// A device is not the one of its row in its first state, or there are too few or too many devices.
    WrongDevice,
}

/// Why there is no verdict, and which file is at fault.
#[derive(Debug, Drop)]
pub struct Failure {
    pub fault: ShellFault,
    /// The path of the file. None if standard input, the output or memory failed.
    pub file: Option<String>,
}

/// What a text was found to be.
#[derive(Clone, Copy, Debug, PartialEq, Eq)]
pub enum Verdict {
    /// Accepted, or played with no line refused.
    Yes,
    /// Refused, or played with a line refused.
    Refused,
}

impl ShellFault {
    /// The name that is printed for the fault.
    pub fn name(&self) -> &'static str
        ensures { result.now ≡ fault_name self.now }
    {
        match self {
            ShellFault::NoMemory => "NoMemory",
            ShellFault::Read => "Read",
            ShellFault::Write => "Write",
            ShellFault::TooLong => "TooLong",
            ShellFault::WrongDevice => "WrongDevice",
        }
    }
}

impl Failure {
    /// The failure for a fault that came up while this file was read. `Read` and `TooLong` are
    /// blamed on the file; the others are not.
    pub fn at(fault: ShellFault, path: String) -> Failure
        ensures fault { result.fault ≡ fault }
        ensures file { option_map string_bytes result.file ≡ file_at_fault fault (string_bytes path) }
    {
        let file = match fault {
            ShellFault::Read | ShellFault::TooLong => Some(path),
            ShellFault::NoMemory | ShellFault::Write | ShellFault::WrongDevice => None,
        };
        Failure { fault, file }
    }

    /// Writes what standard error gets: the line `fault: NAME`, and a second one, `file: PATH`, if
    /// a file is at fault.
    ///
    /// # Errors
    ///
    /// The writer's. Then any part of this may have been written.
    pub fn write<W: Write>(&self, writer: &mut W) -> io::Result<()>
        ensures { OnOk result (Appends (W.contents writer.old) (W.contents writer.new)
            (failure_text self.now.fault (option_map string_bytes self.now.file))) }
    {
        let name = self.fault.name();
        match &self.file {
            None => writeln!(writer, "fault: {name}"),
            Some(path) => writeln!(writer, "fault: {name}\nfile: {path}"),
        }
    }
}

impl From<ShellFault> for Failure {
    ghost from_gives = { λ fault failure. (failure.fault ≡ fault) × (failure.file ≡ None) };

    fn from(fault: ShellFault) -> Self {
        Failure { fault, file: None }
    }
}

impl From<AllocError> for Failure {
    ghost from_gives = { λ _ failure. (failure.fault ≡ NoMemory) × (failure.file ≡ None) };

    fn from(_e: AllocError) -> Self {
        Failure {
            fault: ShellFault::NoMemory,
            file: None,
        }
    }
}

impl From<AllocError> for ShellFault {
    ghost from_gives = { λ _ e. e ≡ NoMemory };

    fn from(_e: AllocError) -> ShellFault {
        ShellFault::NoMemory
    }
}

impl<T: Drop> From<AllocFailed<T>> for ShellFault {
    ghost from_gives = { λ _ e. e ≡ NoMemory };

    fn from(_e: AllocFailed<T>) -> ShellFault {
        ShellFault::NoMemory
    }
}

impl From<RigFault> for ShellFault {
    ghost from_gives = { λ fault e. e ≡ fault_of_rig fault };

    fn from(fault: RigFault) -> ShellFault {
        match fault {
            RigFault::NoMemory => ShellFault::NoMemory,
            RigFault::WrongDevice(_row) => ShellFault::WrongDevice,
        }
    }
}

impl From<WriteFailed> for ShellFault {
    ghost from_gives = { λ _ e. e ≡ Write };

    fn from(_e: WriteFailed) -> ShellFault {
        ShellFault::Write
    }
}

/// The status with which the program ends: 0 for a yes, 1 for a refusal, 3 for a fault.
pub fn status(answer: &Result<Verdict, ShellFault>) -> u8
    ensures { result ≡ status_of answer.now }
{
    match answer {
        Ok(Verdict::Yes) => 0,
        Ok(Verdict::Refused) => 1,
        Err(_) => 3,
    }
}
