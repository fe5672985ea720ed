//! The target of a ball device.

/// Where a ball device ejects its balls to.
#[derive(Clone, Copy)]
pub enum Destination {
    /// Onto the playfield.
    Playfield,
    /// Into the ball device whose row has this number. It may come later.
    Device(usize),
    /// To a ball device that nothing defines: there is no plan then.
    Unknown,
}
