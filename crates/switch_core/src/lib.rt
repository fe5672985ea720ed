//! Switches: which raw levels are accepted, and when.
#![tactic(auto)]

pub mod change;
pub mod law;
mod state;
pub mod switches;

pub use change::Change;
pub use law::levels_are_accepted;
pub use switches::Switches;
