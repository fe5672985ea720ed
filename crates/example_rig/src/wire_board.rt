//! A board at the other end of a wire.

ghost use Rattle.std.specs.{Prelude.{◌≡◌, ◌↔◌, [], Some, Ok, OnOk, IsErr, is_ok, option_map}, Io.KnownBytes.Appends};
ghost use Rattle.coil_guard.specs.Boards.{IsToldAfter};
ghost use Rattle.example_rig.specs.Wire.{frame_of, told_of};

use arrayvec::ArrayVec;
use coil_guard::{Board, BoardFault, Command};
use std::io::{self, Write};

/// How many commands a board keeps.
const ROOM: usize = 64;

/// A board that sends each command over a wire, as a frame: a line that begins with `!`, such as
/// `!P 0 20 1000`. It counts the frames that the wire has not taken. It reports the list of its
/// commands as long as it has room for all of them.
#[derive(Drop)]
pub struct WireBoard<W: Write + Drop> {
    wire: W,
    faults: u64,
    /// The commands that were taken, unless there were too many.
    commands: Option<ArrayVec<Command, ROOM>>,
}

impl<W: Write + Drop> WireBoard<W> {
    /// A board that has taken no command. The wire is as it was.
    pub fn new(wire: W) -> WireBoard<W>
        ensures wire { result.wire ≡ wire }
        ensures faults { result.faults ≡ 0 }
        ensures commands { told_of result.commands ≡ Some [] }
    {
        WireBoard {
            wire,
            faults: 0,
            commands: Some(ArrayVec::new()),
        }
    }

    /// The commands that were taken, first taken first, unless there were too many.
    pub fn commands(&self) -> Option<&[Command]>
        ensures { option_map (λ commands. commands.now) result ≡ told_of self.now.commands }
    {
        self.commands.as_ref().map(|commands| commands.as_slice())
    }
}

impl<W: Write + Drop> Board for WireBoard<W> {
    ghost use Rattle.coil_guard.specs.Boards.{HasFaulted, IsAnswered, untold};

    ghost fault_count = { λ b. b.faults };

    ghost command_list = { λ b. told_of b.commands };

    // Not inlined, so that a profile counts its calls.
    #[inline(never)]
    fn send(&mut self, command: Command) -> Result<(), BoardFault>
        ensures fault { IsErr result ↔ HasFaulted self.old.faults self.new.faults }
        ensures count { OnOk result (self.new.faults ≡ self.old.faults) }
        ensures list { IsToldAfter command result (told_of self.old.commands) (told_of self.new.commands) }
        ensures answer { IsAnswered (is_ok result) untold untold }
        ensures sends { OnOk result (Appends (W.contents self.old.wire) (W.contents self.new.wire) (frame_of command)) }
    {
        // If the count could not rise, a fault would not be seen: then nothing is sent any more.
        if self.faults == u64::MAX || send_frame(&mut self.wire, command).is_err() {
            self.faults = self.faults.saturating_add(1);
            return Err(BoardFault);
        }
        keep(&mut self.commands, command);
        Ok(())
    }

    fn faults(&self) -> u64 {
        self.faults
    }
}

/// Writes the frame of a command, and all that the wire has kept back.
fn send_frame<W: Write>(wire: &mut W, command: Command) -> io::Result<()>
    ensures { OnOk result (Appends (W.contents wire.old) (W.contents wire.new) (frame_of command)) }
{
    match command {
        Command::Pulse { coil, ms, power } => writeln!(wire, "!P {} {ms} {power}", coil.0)?,
        Command::Enable { coil, power } => writeln!(wire, "!E {} {power}", coil.0)?,
        Command::Disable { coil } => writeln!(wire, "!D {}", coil.0)?,
    }
    wire.flush()
}

/// Adds a command to a list. If there is no room for it, there is no list from then on.
fn keep(commands: &mut Option<ArrayVec<Command, ROOM>>, command: Command)
    ensures { IsToldAfter command (Ok tt) (told_of commands.old) (told_of commands.new) }
{
    if let Some(list) = commands
        && list.try_push(command).is_err()
    {
        *commands = None;
    }
}
