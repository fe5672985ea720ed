//! Why a configuration is refused.

ghost use Rattle.std.specs.Prelude.{◌≡◌};
ghost use Rattle.config_checker.specs.declared.report.Report.TheVariants.{NoMemory};

use plan_tables::table::Table;
use row_faults::RowFault;
use std::alloc::{AllocError, AllocFailed};
use std::mem::size_of;
use thiserror::Error;

/// What is wrong with a certificate.
#[derive(Debug, Drop, Error)]
pub enum CertificateFault {
    /// The number, from 1, of the first line that is not in the format of a certificate.
    #[error("Line {0}")]
    Line(usize),
    /// Its events are not those of the plan, in the order of their numbers.
    #[error("Events")]
    Events,
    /// Its switches are not those of the plan, in the order of their numbers.
    #[error("Switches")]
    Switches,
    /// The first event that weighs less than it needs, by its name, and the weight that it needs. That is in a
    /// box, since a number of 128 bits would make each fault larger.
    #[error("Short {1}")]
    Short(Vec<u8>, Box<u128>),
    /// It states another bound than this one, which its weights have.
    #[error("Bound {0}")]
    Bound(u32),
    /// The first switch whose stated cost is wrong, by its name, and the cost that the weights give it.
    #[error("Switch {1}")]
    Switch(Vec<u8>, u32),
}

/// A fault of a configuration.
#[derive(Debug, Drop, Error)]
pub enum CheckFault {
    /// Something is wrong with the rows of a text.
    #[error("{} {}", .0.kind.name(), .0.line)]
    Row(RowFault),
    /// The first table that is above its limit.
    #[error("Limit {}", .0.name())]
    Limit(Table),
    /// Each of these events leads to the next, and the last one to the first. Here are their names.
    #[error("Cycle")]
    Cycle(Vec<Vec<u8>>),
    /// A weight or the bound of a stimulus is above 100,000.
    #[error("Bound")]
    Bound,
    /// The certificate is not one of this configuration.
    #[error("Certificate {0}")]
    Certificate(CertificateFault),
}

const _: () = prove!(size_of::<CheckFault>() <= 56);

/// Why a configuration is refused.
#[derive(Debug, Drop, Error)]
pub enum Report {
    /// Memory ran out.
    #[error("NoMemory")]
    NoMemory,
    /// The faults, in the order in which they are reported.
    #[error("refused")]
    Faults(Vec<CheckFault>),
}

impl From<AllocError> for Report {
    ghost from_gives = { λ _ e. e ≡ NoMemory };

    fn from(_e: AllocError) -> Report {
        Report::NoMemory
    }
}

impl<T: Drop> From<AllocFailed<T>> for Report {
    ghost from_gives = { λ _ e. e ≡ NoMemory };

    fn from(_e: AllocFailed<T>) -> Report {
        Report::NoMemory
    }
}
