//! The written machine: what a run of a plan is, and what is promised of every run of an accepted one.
//!
//! The machine is defined in `specs/`: its state and each change of it (`Machine`), the event step (`EventStep`),
//! stimuli and runs (`Run`), and the promises (`GoodRun`). The code here is what was accepted, the lines of a trace,
//! and the promises as laws. Other crates compute the machine: the checker accepts plans by it, and the rig runs it.
#![tactic(auto)]

pub mod checked;
pub mod law;
pub mod line;

pub use checked::Checked;
pub use law::{accepted_is_good, alarms_end, guards_follow_commands};
pub use line::{Happening, Line};
