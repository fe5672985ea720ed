//! The numbers of the effect lists of ball saves and multiballs. Devices answer these numbers, and a plan has the lists
//! in this order.

/// The list of a ball save that becomes active.
pub const SAVE_ENABLED: u16 = 0;
/// The list of a ball save that is active no more.
pub const SAVE_DISABLED: u16 = 1;
/// The list of a ball that is saved.
pub const SAVE_SAVING: u16 = 2;

/// The list of a multiball that starts.
pub const MULTIBALL_STARTED: u16 = 0;
/// The list of a multiball that ends.
pub const MULTIBALL_ENDED: u16 = 1;
