//! Faults in the texts of a configuration: what is wrong, and where.
//!
//! A [`BundleFault`] has its kind, its text, its line and its key. A [`Spot`] is a place at which there may be a fault.
//! A reader is given the spot, and makes a fault of some kind there if it finds one.
#![tactic(auto)]

mod fault;
mod spot;

pub use fault::{BundleFault, BundleFaultKind, ConfigFault};
pub use spot::{Spot, spot_of};
