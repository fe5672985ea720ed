//! Coils: which commands are sent to them, and the boards that take these commands.
#![tactic(auto)]

pub mod board;
pub mod boxed;
pub mod coils;
pub mod command;
pub mod fuse_board;
pub mod law;
mod limits;
pub mod memory_board;
pub mod state;

pub use board::{Board, BoardFault};
pub use coils::Coils;
pub use command::{Answer, Command};
pub use fuse_board::{FuseBoard, SharedCommands};
pub use law::{
    answers_are_by_commands, commands_are_within_limits, fuse_board_faults_from_kth,
    guard_follows_commands, limits_hold_on_a_slower_clock, memory_board_keeps_latest,
};
pub use memory_board::MemoryBoard;
pub use state::CoilState;
