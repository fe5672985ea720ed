//! The rows of a configuration in plan order: entries, shots with their seats, groups with what is known of
//! their shots, ball devices with their targets, entries of players, and modes.
//!
//! A row has all that it needs of other entries, so that what it gives to a plan follows from the row alone.
#![tactic(auto)]

pub mod destination;
pub mod members;
pub mod rows;
pub mod seats;

pub use destination::Destination;
pub use members::{Members, is_enabled, is_none};
pub use rows::{Row, rows_of};
pub use seats::Seat;
