//! The machine of a plan: what a stimulus does to it, and the event steps after it.
#![tactic(auto)]

mod actions;
mod balls;
mod calls;
pub mod core_state;
mod drains;
mod exchange;
pub mod fault;
mod fit;
mod game_steps;
mod idle;
mod lists;
pub mod parts;
pub mod stimulus;
mod tellings;

pub use core_state::Core;
pub use fault::CoreFault;
pub use parts::{advance, begin, settle};
pub use stimulus::{Source, Stimulus};
