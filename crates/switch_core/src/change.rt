//! What is reported of a switch.

use plan_tables::entries::SwitchId;

/// A switch's new level was accepted.
#[derive(Clone, Copy, Debug)]
pub struct Change {
    pub switch: SwitchId,
    /// Whether the switch is active now.
    pub active: bool,
}
