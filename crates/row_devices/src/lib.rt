//! The device of each row of a plan, whatever its kind.
#![tactic(auto)]

pub mod row_device;

pub use row_device::{RowDevice, device_of};
