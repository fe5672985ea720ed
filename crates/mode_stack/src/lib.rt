//! Modes: in which phase each is, and what starting and stopping do.
#![tactic(auto)]

pub mod law;
pub mod modes;
pub mod phase;

pub use law::starting_keeps_who_runs;
pub use modes::Modes;
pub use phase::{ModeState, Phase, StopAnswer};
