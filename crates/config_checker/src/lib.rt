//! The checker: it accepts a configuration and certifies it, or reports its faults.
#![tactic(auto)]

pub mod certificate;
mod certificate_reader;
mod certified;
pub mod checker;
pub mod law;
pub mod report;
pub mod report_text;
mod reporting;

pub use certificate::write_certificate;
pub use checker::{check, check_with};
pub use law::certificate_is_read_again;
pub use report::{CertificateFault, CheckFault, Report};
pub use report_text::write_report;
pub use written_machine::Checked;
