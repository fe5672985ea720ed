//! The reply to a bundle.

ghost use Rattle.std.specs.Prelude.{◌≡◌};
ghost use Rattle.pinball_shell.specs.ReplyView.{verdict_of_reply};

use crate::fault::Verdict;
use config_checker::{CheckFault, Checked};
use mpf_config::{BundleFault as RowsFault, Note};

/// Why a bundle is refused.
#[derive(Drop)]
pub enum BundleRefusal {
    /// It has no rows: the fault that was met first.
    Unread(RowsFault),
    /// Its rows are refused: the faults that the report lists.
    Unfit(Vec<CheckFault>),
}

/// The reply to a bundle.
#[derive(Drop)]
pub struct Reply {
    /// The notes on its rows, in the order in which they are printed; none if it has no rows.
    pub notes: Vec<Note>,
    /// What was accepted, or why nothing was.
    pub answer: Result<Checked, BundleRefusal>,
}

impl Reply {
    /// Whether the bundle is accepted.
    pub fn verdict(&self) -> Verdict
        ensures { result ≡ verdict_of_reply self.now }
    {
        match self.answer {
            Ok(_) => Verdict::Yes,
            Err(_) => Verdict::Refused,
        }
    }
}
