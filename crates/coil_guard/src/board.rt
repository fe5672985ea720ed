//! Boards: what takes commands to coils.

use crate::command::Command;
use thiserror::Error;

/// The board has not taken a command.
#[derive(Clone, Copy, Debug, Error)]
#[error("BoardFault")]
pub struct BoardFault;

/// A board takes commands to coils, one at a time, and counts its faults. It may report the list of
/// the commands that it has taken. It may also report its answers to the commands to come, and then it
/// has to give these answers. What a board does with a coil, no contract can say.
pub trait Board: Drop {
    ghost use Rattle.std.specs.Prelude.{◌≡◌, ◌↔◌, ℕ, Option, List, is_ok, IsErr, OnOk};
    ghost use Rattle.coil_guard.specs.declared.command.Command.{Command};
    ghost use Rattle.coil_guard.specs.Boards.{HasFaulted, IsToldAfter, Answers, untold, IsAnswered};

    /// The count of faults.
    ghost fault_count: { Self → ℕ };
    /// The commands that were taken, first taken first, if the board reports them.
    ghost command_list: { Self → Option (List Command) };
    /// The answers to the commands to come, if the board reports them.
    ghost answers: { Self → Answers } = { λ _. untold };

    /// Takes a command. A reported list has grown by it, or is no longer reported. A board that
    /// reports its answer takes the command exactly if that answer says so, and its later answers
    /// stay as they were.
    ///
    /// # Errors
    ///
    /// `BoardFault`: the board has not taken the command. The count of faults has risen, or it was
    /// 2^64 - 1 already. A reported list stays as it was.
    fn send(&mut self, command: Command) -> Result<(), BoardFault>
        ensures fault { IsErr result ↔ HasFaulted (fault_count self.old) (fault_count self.new) }
        ensures count { OnOk result (fault_count self.new ≡ fault_count self.old) }
        ensures list { IsToldAfter command result (command_list self.old) (command_list self.new) }
        ensures answer { IsAnswered (is_ok result) (answers self.old) (answers self.new) };

    /// How many faults there were, counted up to 2^64 - 1.
    fn faults(&self) -> u64
        ensures { result ≡ fault_count self.now };
}
