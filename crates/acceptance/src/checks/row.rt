//! How the rows of tables are answered: by the calls that check and verify.

use crate::asserts::assert_text;
use pinball_shell::{check_text, verify_text};
use std::process::Abort;
use worked_rows::{Answers, Pen, Row, Sink, Source, wrong_rows, wrong_walks};

/// Each row of the table is answered and printed as it says.
pub(crate) fn assert_rows<R: Abort + AllocGlobal>(rt: &R, table: &str) {
    assert_text(rt, &wrong_rows(rt.alloc(), &Checker, table), "");
}

/// Each row of the table is answered as it should whichever read or write fails (`wrong_walks`).
pub(crate) fn assert_walks<R: Abort + AllocGlobal>(rt: &R, table: &str) {
    assert_text(rt, &wrong_walks(rt.alloc(), &Checker, table), "");
}

/// Checks bundles, and verifies certificates on them.
#[derive(Clone, Copy)]
struct Checker;

impl Answers for Checker {
    fn answer(
        &self,
        pen: &mut Pen,
        row: &Row<'_>,
        bundle: &mut Source<'_>,
        certificate: &mut Source<'_>,
        sink: &mut Sink,
    ) {
        let answer = match row.call {
            "check" => check_text(pen.alloc, bundle, sink),
            _ => verify_text(pen.alloc, bundle, certificate, sink),
        };
        match answer {
            Ok(verdict) => pen.shown(verdict),
            Err(fault) => pen.put(fault.name()),
        }
    }
}
