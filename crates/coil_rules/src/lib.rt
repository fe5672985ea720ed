//! Flippers and autofire coils as devices.
#![tactic(auto)]

pub mod autofire;
pub mod flipper;

pub use autofire::Autofire;
pub use flipper::Flipper;
