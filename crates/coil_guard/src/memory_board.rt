//! A board that keeps its commands in memory.

use crate::board::{Board, BoardFault};
use crate::command::Command;
use circular_buffer::HeapCircularBuffer;
use std::alloc::{AllocError, Global};
use std::marker::Model;

/// How many commands the board keeps.
const ROOM: usize = 1_024;

/// How far the board counts: to one more than it keeps.
const MOST_COUNTED: u16 = 1_025;

/// A board that takes every command and keeps the latest 1,024 of them. It reports the list of its
/// commands until it has taken more than 1,024, and reports that it takes all commands to come.
#[derive(Drop)]
pub struct MemoryBoard {
    ring: HeapCircularBuffer<Command>,
    commands_taken: u16,
}

impl Model for MemoryBoard {
    ghost use Rattle.coil_guard.specs.Boards.{MemoryView};
    ghost use Rattle.coil_guard.specs.GuardState.{IsMemory};

    ghost Value = { MemoryView };

    ghost view = { λ b. record { ring = b.ring.items; count = b.commands_taken } };

    ghost invariant = { λ b. IsMemory b.ring.items b.ring.capacity b.commands_taken };
}

impl MemoryBoard {
    ghost use Rattle.std.specs.Prelude.{◌≡◌, ◌++◌, IfOk};
    ghost use Rattle.coil_guard.specs.Boards.{empty_memory};

    /// A board that has taken no command. Only this call takes memory.
    ///
    /// # Errors
    ///
    /// `AllocError`: memory ran out.
    pub fn new(alloc: Global) -> Result<MemoryBoard, AllocError>
        ensures { IfOk result (λ b. b ≡ empty_memory) }
    {
        Ok(MemoryBoard {
            ring: HeapCircularBuffer::with_capacity(alloc, ROOM)?,
            commands_taken: 0,
        })
    }

    /// How many commands the board has taken, counted up to 1,025.
    pub fn count(&self) -> u32
        ensures { result ≡ self.now.count }
    {
        u32::from(self.commands_taken)
    }

    /// The commands that are kept, first taken first, in two slices: the second goes on where the
    /// first ends. They are all that the board has taken, or the latest 1,024.
    pub fn taken(&self) -> (&[Command], &[Command])
        ensures { result.0.now ++ result.1.now ≡ self.now.ring }
    {
        self.ring.as_slices()
    }
}

impl Board for MemoryBoard {
    ghost use Rattle.std.specs.Prelude.{◌≡◌, IsOk};
    ghost use Rattle.coil_guard.specs.Boards.{IsToldAfter, told_by_memory, takes_all, after_taking};

    ghost fault_count = { λ _. 0 };

    ghost command_list = { λ b. told_by_memory b };

    ghost answers = { λ _. takes_all };

    fn send(&mut self, command: Command) -> Result<(), BoardFault>
        ensures list { IsToldAfter command result (told_by_memory self.old) (told_by_memory self.new) }
        ensures never { IsOk result }
        ensures state { self.new ≡ after_taking command self.old }
    {
        let _oldest = self.ring.push_back(command);
        self.commands_taken = (self.commands_taken + 1).min(MOST_COUNTED);
        Ok(())
    }

    fn faults(&self) -> u64 {
        0
    }
}
