//! What became of the coils that were turned off at the end.

use arrayvec::ArrayVec;
use plan_tables::CoilId;

/// What became of the coils at the end: each that was to be turned off was sent a disable.
#[derive(Drop)]
pub struct ShutReport {
    /// The coils whose disable the board has taken, in the order of their numbers.
    pub off: ArrayVec<CoilId, 256>,
    /// How many disables the board has not taken: at most 256.
    pub faults: u16,
}
