//! Ball devices, which hold balls and eject them, ball saves, multiballs, and the ledger of all known balls.
#![tactic(auto)]

pub mod ball_device;
pub mod ball_save;
pub mod booking;
mod ejects;
pub mod law;
pub mod ledger;
pub mod multiball;
mod switches;

pub use ball_device::BallDevice;
pub use ball_save::BallSave;
pub use booking::{Booking, Origin};
pub use law::{balls_are_somewhere, ledgers_follow_bookings};
pub use ledger::BallLedger;
pub use multiball::Multiball;
