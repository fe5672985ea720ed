//! Why there is no core.

ghost use Rattle.std.specs.Prelude.{◌≡◌};
ghost use Rattle.machine_core.specs.declared.fault.CoreFault.TheVariants.{NoMemory};

use plan_tables::RowId;
use std::alloc::{AllocError, AllocFailed};
use thiserror::Error;

/// Why there is no core.
#[derive(Clone, Copy, Debug, Error)]
pub enum CoreFault {
    /// Memory ran out.
    #[error("NoMemory")]
    NoMemory,
    /// The first row whose device is not the one of the row, in its first state. If there are
    /// too few devices, it is the first row without one, and if there are too many, the first
    /// number without a row.
    #[error("WrongDevice {}", .0.0)]
    WrongDevice(RowId),
}

impl From<AllocError> for CoreFault {
    ghost from_gives = { λ _ e. e ≡ NoMemory };

    fn from(_e: AllocError) -> CoreFault {
        CoreFault::NoMemory
    }
}

impl<T: Drop> From<AllocFailed<T>> for CoreFault {
    ghost from_gives = { λ _ e. e ≡ NoMemory };

    fn from(_e: AllocFailed<T>) -> CoreFault {
        CoreFault::NoMemory
    }
}
