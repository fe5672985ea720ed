//! The assertion with which each test ends. It is in a file of its own, since a test that has it in itself is slow to
//! prove.

use std::process::Abort;
use worked_rows::Pen;

/// This is written in the end.
pub(crate) fn assert_text<R: Abort>(rt: &R, found: &Pen, wanted: &str) {
    assert_eq!(rt; found.end(), wanted);
}
