//! The lines of a trace.

use ball_devices::Booking;
use coil_guard::Command;
use plan_tables::entries::{EventId, Owner, SwitchId, VariableId};
use std::mem::size_of;

/// How many balls are known, and where they are.
#[derive(Clone, Copy, Debug)]
pub struct BallCounts {
    pub known: u32,
    /// How many lie in devices.
    pub counted: u32,
    /// How many are on their way from a device to its target.
    pub transit: u32,
    /// How many are on the playfield.
    pub playfield: u32,
}

/// What a line says.
#[derive(Clone, Copy, Debug)]
pub enum Happening {
    /// The switch was accepted as active (`true`) or inactive.
    Switch(SwitchId, bool),
    /// The event was taken from the queue.
    Event(EventId),
    /// The command was sent to its coil.
    Coil(Command),
    /// The command was asked for, and not sent.
    Skip(Command),
    /// A variable of the player of this number has changed to this value.
    Player(usize, VariableId, i64),
    /// The ledger of balls has booked this.
    Balls(Booking, BallCounts),
    /// The game has ended, and this is the score of the player of this number.
    Final(usize, i64),
}

/// A line of a trace: the moment in milliseconds, who acted, and what happened.
#[derive(Clone, Copy, Debug)]
pub struct Line {
    pub moment: u64,
    pub owner: Owner,
    pub happening: Happening,
}

const _: () = prove!(size_of::<Line>() <= 48);
