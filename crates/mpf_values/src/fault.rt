//! Why a text has no value.

ghost use Rattle.std.specs.Prelude.{◌≡◌};
ghost use Rattle.mpf_values.specs.declared.fault.ListFault.TheVariants.{NoMemory};

use std::alloc::{AllocError, AllocFailed};
use thiserror::Error;

/// The text is no value of its kind, or one beyond its range.
#[derive(Clone, Copy, Debug, Error)]
#[error("BadValue")]
pub struct BadValue;

/// Why a list was not read.
#[derive(Clone, Copy, Debug, Error)]
pub enum ListFault {
    /// Memory ran out.
    #[error("NoMemory")]
    NoMemory,
    /// The node is no list.
    #[error("BadValue")]
    BadValue,
}

impl From<AllocError> for ListFault {
    ghost from_gives = { λ _ e. e ≡ NoMemory };

    fn from(_e: AllocError) -> ListFault {
        ListFault::NoMemory
    }
}

impl<T: Drop> From<AllocFailed<T>> for ListFault {
    ghost from_gives = { λ _ e. e ≡ NoMemory };

    fn from(_e: AllocFailed<T>) -> ListFault {
        ListFault::NoMemory
    }
}
