//! Why rows have no plan.

ghost use Rattle.std.specs.Prelude.{◌≡◌};
ghost use Rattle.mpf_plan.specs.declared.fault.PlanFault.TheVariants.{NoMemory};

use plan_tables::table::Table;
use std::alloc::{AllocError, AllocFailed};
use thiserror::Error;

/// Why rows have no plan.
#[derive(Clone, Copy, Debug, Error)]
pub enum PlanFault {
    /// Memory ran out.
    #[error("NoMemory")]
    NoMemory,
    /// A name is used that nothing has.
    #[error("NoSuchName")]
    NoSuchName,
    /// The first table that is above its limit.
    #[error("Limit {}", .0.name())]
    Limit(Table),
}

impl From<AllocError> for PlanFault {
    ghost from_gives = { λ _ e. e ≡ NoMemory };

    fn from(_e: AllocError) -> PlanFault {
        PlanFault::NoMemory
    }
}

impl<T: Drop> From<AllocFailed<T>> for PlanFault {
    ghost from_gives = { λ _ e. e ≡ NoMemory };

    fn from(_e: AllocFailed<T>) -> PlanFault {
        PlanFault::NoMemory
    }
}
