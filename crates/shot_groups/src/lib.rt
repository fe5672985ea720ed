//! Banks of shots as devices: groups of shots, and lone shots.
#![tactic(auto)]

pub mod bank;
pub mod mask_bank;
mod shots;

pub use bank::ShotBank;
pub use mask_bank::MaskBank;
