//! The bundle of a machine's folder: the machine text, and the texts of the modes that it lists.
#![tactic(auto)]

pub mod disk;
pub mod folder;
mod modes;

pub use disk::Disk;
pub use folder::{Texts, folder_bundle};
