//! How the rows of tables are answered: by the calls that load a bundle and play a log.

use crate::asserts::assert_text;
use crate::plays::machine::play_log;
use pinball_shell::load_text;
use std::process::Abort;
use worked_rows::{Answers, Pen, Row, Sink, Source, wrong_rows, wrong_walks};

/// Each row of the table is answered and printed as it says.
pub(crate) fn assert_rows<R: Abort + AllocGlobal>(rt: &R, table: &str) {
    assert_rows_by(rt, OF_TEXTS, table);
}

/// Each row of the table is answered and printed as it says by this player.
pub(crate) fn assert_rows_by<R: Abort + AllocGlobal>(rt: &R, player: Player, table: &str) {
    assert_text(rt, &wrong_rows(rt.alloc(), &player, table), "");
}

/// Each row of the table is answered as it should whichever read or write fails (`wrong_walks`).
pub(crate) fn assert_walks<R: Abort + AllocGlobal>(rt: &R, table: &str) {
    assert_text(rt, &wrong_walks(rt.alloc(), &OF_TEXTS, table), "");
}

/// Plays logs on bundles, or prints why a bundle is refused.
#[derive(Clone, Copy)]
pub(crate) struct Player {
    is_live: bool,
}

/// Plays logs by `play_text`.
pub(crate) const OF_TEXTS: Player = Player { is_live: false };

/// Plays logs by `run_live`.
pub(crate) const LIVE: Player = Player { is_live: true };

impl Answers for Player {
    fn answer(
        &self,
        pen: &mut Pen,
        row: &Row<'_>,
        bundle: &mut Source<'_>,
        log: &mut Source<'_>,
        sink: &mut Sink,
    ) {
        match load_text(pen.alloc, bundle, sink) {
            Ok(Some(checked)) => play_log(pen, &checked, (row.board, self.is_live), log, sink),
            Ok(None) => pen.put("Refused"),
            Err(fault) => pen.put(fault.name()),
        }
    }
}
