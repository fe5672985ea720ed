//! The tables of logs: each row is played from the text of its log, and live.

use crate::plays::row::{LIVE, OF_TEXTS, Player, assert_rows_by};
use std::process::Abort;
use worked_rows::PLAYS;

/// Each row of each table of logs is printed as it says by this player. (A loop over these tables is slow to prove.)
fn assert_plays<R: Abort + AllocGlobal>(rt: &R, player: Player) {
    for table in PLAYS {
        assert_rows_by(rt, player, table);
    }
}

#[test]
fn logs_are_played(rt: HostRuntime) {
    assert_plays(&rt, OF_TEXTS);
}

#[test]
fn logs_are_played_live(rt: HostRuntime) {
    assert_plays(&rt, LIVE);
}
