//! Why a text has no tree.

ghost use Rattle.std.specs.Prelude.{◌≡◌};
ghost use Rattle.yaml_subset.specs.declared.fault.YamlFault.TheVariants.{NoMemory};

use std::alloc::{AllocError, AllocFailed};
use thiserror::Error;

/// What is wrong with a text at a line.
#[derive(Clone, Copy, Debug, Error)]
pub enum TextFaultKind {
    /// The bytes of the line are not UTF-8.
    #[error("NotUtf8")]
    NotUtf8,
    /// A tab comes before the content of a line, or between a `-` and a key.
    #[error("Tab")]
    Tab,
    /// The line belongs to no block: it is deeper than the items or entries around it, or no block
    /// that is still open has its indentation.
    #[error("Indent")]
    Indent,
    /// The key is in its mapping already.
    #[error("DuplicateKey")]
    DuplicateKey,
    /// A text in quotes is not closed on its line, has an unknown escape, or is followed by other
    /// text.
    #[error("Quote")]
    Quote,
    /// A list in brackets or a mapping in braces is not closed on its line, is malformed, or is
    /// followed by other text.
    #[error("Flow")]
    Flow,
    /// A line that has to be an entry or an item is not (at its first character); or the text uses
    /// a form of YAML that is not read, a key of more than 1,024 characters, or a character that no
    /// line may have.
    #[error("NotInSubset")]
    NotInSubset,
    /// More than 32 blocks of lines are one inside another, or more than 8 brackets and braces on
    /// one line.
    #[error("TooDeep")]
    TooDeep,
    /// The text has more than 1 MiB.
    #[error("TooLong")]
    TooLong,
}

/// A fault and the line where it is, counted from 1.
#[derive(Clone, Copy, Debug, Error)]
#[error("{kind} at line {line}")]
pub struct TextFault {
    pub kind: TextFaultKind,
    pub line: u32,
}

/// Why a text was not read.
#[derive(Clone, Copy, Debug, Error)]
pub enum YamlFault {
    /// Memory ran out.
    #[error("NoMemory")]
    NoMemory,
    /// The text has a fault: the first one.
    #[error(transparent)]
    Text(TextFault),
}

impl TextFault {
    /// A fault of a kind at a line.
    pub fn new(kind: TextFaultKind, line: u32) -> Self
        ensures { result ≡ record { kind = kind; line = line } }
    {
        TextFault { kind, line }
    }
}

impl YamlFault {
    /// The error that a text has a fault of a kind at a line.
    pub fn at(kind: TextFaultKind, line: u32) -> Self
        ensures { result ≡ YamlFault.Text (record { kind = kind; line = line }) }
    {
        YamlFault::Text(TextFault::new(kind, line))
    }
}

impl From<AllocError> for YamlFault {
    ghost from_gives = { λ _ e. e ≡ NoMemory };

    fn from(_e: AllocError) -> YamlFault {
        YamlFault::NoMemory
    }
}

impl<T: Drop> From<AllocFailed<T>> for YamlFault {
    ghost from_gives = { λ _ e. e ≡ NoMemory };

    fn from(_e: AllocFailed<T>) -> YamlFault {
        YamlFault::NoMemory
    }
}
