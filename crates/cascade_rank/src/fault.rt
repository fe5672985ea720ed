//! Why no weights were found, or why the given ones are refused.

ghost use Rattle.std.specs.Prelude.{◌≡◌};
ghost use Rattle.cascade_rank.specs.declared.fault.RankFault.TheVariants.{NoMemory};

use plan_tables::EventId;
use std::alloc::{AllocError, AllocFailed};
use thiserror::Error;

/// Why no weights were found, or why the given ones are refused.
#[derive(Debug, Drop, Error)]
pub enum RankFault {
    /// Memory ran out.
    #[error("NoMemory")]
    NoMemory,
    /// Each of these events leads to the next, and the last one to the first, so no weights fit.
    /// A rule selects the cycle. Start at the lowest-numbered event that can reach a cycle. Go from
    /// each event to the lowest-numbered event after it that can reach a cycle. Stop at the first
    /// event that was passed before. The cycle is the part of this walk from that event on.
    #[error("Cycle")]
    Cycle(Vec<EventId>),
    /// A weight, or the most lines that one stimulus can cause, is above 100,000.
    #[error("BoundTooLarge")]
    BoundTooLarge,
    /// The lowest-numbered event that weighs less than it needs, and the weight that it needs.
    #[error("Short {1}")]
    Short(EventId, u128),
    /// There are not as many weights as events.
    #[error("WrongEvents")]
    WrongEvents,
}

impl From<AllocError> for RankFault {
    ghost from_gives = { λ _ e. e ≡ NoMemory };

    fn from(_e: AllocError) -> RankFault {
        RankFault::NoMemory
    }
}

impl<T: Drop> From<AllocFailed<T>> for RankFault {
    ghost from_gives = { λ _ e. e ≡ NoMemory };

    fn from(_e: AllocFailed<T>) -> RankFault {
        RankFault::NoMemory
    }
}
