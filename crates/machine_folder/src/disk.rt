//! Texts in files.

use crate::folder::Texts;
use pinball_shell::{BUNDLE_LIMIT, ShellFault, read_all};
use std::alloc::Global;
use std::fs;
use std::io::ErrorKind;
use std::rt::Files;

/// The files of a runtime. What they hold, no contract can say.
#[derive(Drop)]
pub struct Disk<'a, R: Files>(pub &'a R);

impl<'a, R: Files> Texts for Disk<'a, R> {
    ghost use Rattle.std.specs.Prelude.{None};

    ghost text_at = { λ _ _. None };

    fn text(&self, alloc: Global, path: &str) -> Result<Option<Vec<u8>>, ShellFault> {
        match fs::open(self.0, path) {
            Ok(mut file) => Ok(Some(read_all(alloc, &mut file, BUNDLE_LIMIT)?)),
            Err(error) if is_absence(error.kind()) => Ok(None),
            Err(_) => Err(ShellFault::Read),
        }
    }
}

/// Whether opening a path fails since nothing is there.
fn is_absence(kind: ErrorKind) -> bool {
    matches!(kind, ErrorKind::NotFound | ErrorKind::NotADirectory)
}
