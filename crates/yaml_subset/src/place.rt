//! Where on its line a fault is.

ghost use Rattle.std.specs.Prelude.{◌≡◌};
ghost use Rattle.yaml_subset.specs.Reading.{is_before, first_fault};
ghost use Rattle.yaml_subset.specs.declared.place.Halt.TheVariants.{NoMemory};

use crate::fault::TextFaultKind;
use std::alloc::{AllocError, AllocFailed};

/// A fault and its place, which is the number of its line's bytes from there to the end. Of two
/// faults on a line, the left one has more bytes left.
#[derive(Clone, Copy)]
pub struct PlacedFault {
    pub kind: TextFaultKind,
    pub line: u32,
    pub bytes_left: usize,
}

impl PlacedFault {
    /// A fault of a kind on a line where so many of its bytes are left.
    pub fn new(kind: TextFaultKind, line: u32, bytes_left: usize) -> Self
        ensures { result ≡ record { kind = kind; line = line; bytes_left = bytes_left } }
    {
        PlacedFault {
            kind,
            line,
            bytes_left,
        }
    }

    /// Whether the fault is on an earlier line than another, or to the left of it on the same
    /// one.
    pub fn is_before(&self, other: &PlacedFault) -> bool
        ensures { result ≡ is_before self.now other.now }
    {
        self.line < other.line || (self.line == other.line && other.bytes_left < self.bytes_left)
    }

    /// The first of the fault and one that may be known. In the same place that is the known one.
    pub fn or_known(self, known: Option<PlacedFault>) -> PlacedFault
        ensures { result ≡ first_fault known self }
    {
        match known {
            None => self,
            Some(known) => if self.is_before(&known) { self } else { known },
        }
    }
}

/// Why lines were not read.
#[derive(Clone, Copy)]
pub enum Halt {
    /// Memory ran out.
    NoMemory,
    /// The lines have a fault: the first one.
    At(PlacedFault),
}

impl Halt {
    /// The error that a line has a fault of a kind where so many of its bytes are left.
    pub fn at(kind: TextFaultKind, line: u32, bytes_left: usize) -> Self
        ensures { result ≡ Halt.At (record { kind = kind; line = line; bytes_left = bytes_left }) }
    {
        Halt::At(PlacedFault::new(kind, line, bytes_left))
    }
}

impl From<AllocError> for Halt {
    ghost from_gives = { λ _ e. e ≡ NoMemory };

    fn from(_e: AllocError) -> Halt {
        Halt::NoMemory
    }
}

impl<T: Drop> From<AllocFailed<T>> for Halt {
    ghost from_gives = { λ _ e. e ≡ NoMemory };

    fn from(_e: AllocFailed<T>) -> Halt {
        Halt::NoMemory
    }
}
