//! What a ledger books.

use plan_tables::{BallTarget, RowId};

/// Where a ball that enters a device comes from.
#[derive(Clone, Copy, Debug)]
pub enum Origin {
    /// It was on its way to the device.
    Awaited,
    /// It was on the playfield.
    Found,
    /// It was not known.
    New,
}

/// A change in where the known balls are.
#[derive(Clone, Copy, Debug)]
pub enum Booking {
    /// A ball has entered the device.
    Entered(RowId, Origin),
    /// A ball has left the device, and is on its way to the target.
    Left(RowId, BallTarget),
    /// A ball has left the device and is on the playfield, though it was not ejected.
    Lost(RowId),
    /// A ball that was on its way to the target is on the playfield.
    Arrived(BallTarget),
}
