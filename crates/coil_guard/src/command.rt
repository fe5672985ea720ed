//! Commands to coils.

use plan_tables::CoilId;

/// What a board is told to do with a coil. Powers are in thousandths of full power.
#[derive(Clone, Copy, Debug, PartialEq, Eq)]
pub enum Command {
    /// The coil is on for so many milliseconds, with this power.
    Pulse { coil: CoilId, ms: u32, power: u16 },
    /// The coil is on with this power, until it is disabled.
    Enable { coil: CoilId, power: u16 },
    /// The coil is off.
    Disable { coil: CoilId },
}

/// What became of an action.
#[derive(Clone, Copy, PartialEq, Eq)]
pub enum Answer {
    /// This command is sent.
    Sent(Command),
    /// Nothing is sent, and nothing has changed.
    Skipped,
}

/// A disable of coil 0, which fills the unused places of an array.
impl Default for Command {
    ghost use Rattle.std.specs.Prelude.{◌≡◌};

    fn default() -> Self {
        Command::Disable {
            coil: CoilId::default(),
        }
    }
}
