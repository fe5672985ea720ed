//! The controller: the machine of a configuration that was accepted, one input at a time.
#![tactic(auto)]

mod cascade;
pub mod exchange;
pub mod input;
pub mod law;
pub mod rig;

pub use coil_driver::{ShutReport, report};
pub use exchange::{Refusal, exchanges_leave_the_steps};
pub use input::{Input, RigFault, StepFault, check_moment};
pub use law::steps_are_run;
pub use machine_core::Stimulus;
pub use rig::Rig;
