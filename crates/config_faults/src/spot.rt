//! Where a fault is.

ghost use Rattle.std.specs.Prelude.{◌≡◌, IfOk};
ghost use Rattle.std.specs.Cow.{cow_slice_items};
ghost use Rattle.config_faults.specs.Faults.{spot_view, IsFaultAt};

use crate::fault::{BundleFault, BundleFaultKind};
use std::alloc::{AllocError, Global};
use yaml_subset::tree::Key;

/// Where a fault stands: its text's name, the line in that text, counted from 1, and the key
/// that it is about.
#[derive(Clone, Copy)]
pub struct Spot<'a> {
    pub text: &'a [u8],
    pub line: u32,
    pub key: &'a [u8],
}

impl Spot<'_> {
    /// A fault that stands here.
    pub fn fault(self, alloc: Global, kind: BundleFaultKind) -> Result<BundleFault, AllocError>
        ensures { IfOk result (λ fault. IsFaultAt kind self.entry fault) }
    {
        Ok(BundleFault {
            kind,
            text: Vec::from_slice(alloc, self.text)?,
            line: self.line,
            key: Vec::from_slice(alloc, self.key)?,
        })
    }
}

/// Where a key stands, in the text of this name.
pub fn spot_of<'a>(text: &'a [u8], key: &'a Key) -> Spot<'a>
    ensures { spot_view result ≡ record { text = text.now; line = key.now.line; key = cow_slice_items key.now.text } }
{
    Spot {
        text,
        line: key.line,
        key: &key.text,
    }
}
