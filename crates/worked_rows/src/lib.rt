//! Tables of worked rows for tests: what their parts are, what runs them, and readers and writers that fail. `row`
//! says how a row is written.
//!
//! Each answer is written with a `Pen`. What a row asks for is up to the crate of the tests (`Answers`).
#![tactic(auto)]

mod ball_plays;
mod block_plays;
mod coil_plays;
mod game_plays;
mod mode_plays;
mod pen;
mod row;
mod shot_plays;
mod sink;
mod source;
mod stream_plays;
mod switch_plays;
mod texts;
mod walks;

use ball_plays::{BALL_PLAYS, SAVE_PLAYS, THREE_MACHINES_PLAY};
use block_plays::{BLOCK_PLAYS, TIMER_PLAYS};
use coil_plays::{COIL_PLAYS, FAULT_PLAYS, FLIPPER_PLAYS};
use game_plays::GAME_PLAYS;
use mode_plays::MODE_PLAYS;
pub use pen::Pen;
pub use row::{Answers, Row, answered, written, wrong_rows};
use shot_plays::SHOT_PLAYS;
pub use sink::Sink;
pub use source::Source;
pub use stream_plays::STREAM_PLAYS;
use switch_plays::SWITCH_PLAYS;
pub use texts::named;
pub use walks::wrong_walks;

/// All tables of logs that are played. A test of every row goes over this list, so that it also tries a new row.
pub const PLAYS: [&str; 13] = [
    SWITCH_PLAYS,
    MODE_PLAYS,
    BLOCK_PLAYS,
    TIMER_PLAYS,
    COIL_PLAYS,
    FLIPPER_PLAYS,
    FAULT_PLAYS,
    GAME_PLAYS,
    SHOT_PLAYS,
    BALL_PLAYS,
    SAVE_PLAYS,
    THREE_MACHINES_PLAY,
    STREAM_PLAYS,
];
