//! Bytes that were read.

ghost use Rattle.std.specs.Prelude.{◌≡◌, ◌+◌, ◌-◌, ◌⊎◌, ◌≤◌, [], length, drop, IfOk, IfErr, IsErrOf, OnOk};
ghost use Rattle.std.specs.Io.KnownBytes.{IsAtEnd, Keeps, prepend_known};

use crate::link::LONGEST_LINE;
use pinball_shell::ShellFault;
use std::alloc::{AllocError, Global};
use std::io::Read;
use yaml_bytes::split_line;

/// How many bytes there is room for: a longest line with a CR and an LF after it.
const ROOM: usize = LONGEST_LINE + 2;

/// Bytes that were read and not used yet: at most 4,098.
#[derive(Drop)]
pub struct ReadBuffer {
    /// They are `room[start..end]`.
    room: Vec<u8>,
    start: usize,
    end: usize,
    ghost within: { start ≤ end },
    ghost ends: { end ≤ length room.items },
    ghost size: { length room.items ≡ 4098 },
}

impl ReadBuffer {
    ghost use Rattle.live_machine.specs.LineLinks.{read_ahead, HasLine};

    /// No bytes. Only this call takes memory.
    pub fn new(alloc: Global) -> Result<ReadBuffer, AllocError>
        ensures { IfOk result (λ b. read_ahead b ≡ []) }
    {
        Ok(ReadBuffer {
            room: vec![in alloc; 0; ROOM]?,
            start: 0,
            end: 0,
        })
    }

    pub fn bytes(&self) -> &[u8]
        ensures { result.now ≡ read_ahead self.now }
    {
        &self.room[self.start..self.end]
    }

    /// Reads on until there is the end of a line, or the reader is at its end. Fails only if a read
    /// does, and by `TooLong` if there are 4,098 bytes without the end of a line. No byte is lost then.
    pub fn fill_line<R: Read>(&mut self, reader: &mut R) -> Result<(), ShellFault>
        ensures keeps { Keeps (prepend_known (read_ahead self.old) (R.remaining reader.old))
            (prepend_known (read_ahead self.new) (R.remaining reader.new)) }
        ensures line { OnOk result (HasLine (read_ahead self.new) ⊎ IsAtEnd (R.remaining reader.new)) }
        ensures long { IsErrOf result ShellFault.TooLong
            → (length (read_ahead self.new) ≡ 4098) × ¬ (HasLine (read_ahead self.new)) }
        ensures fails { IfErr result (λ e. (e ≡ ShellFault.Read) ⊎ (e ≡ ShellFault.TooLong)) }
    {
        while split_line(self.bytes()).1.is_none() {
            if self.read_more(reader)? == 0 {
                return Ok(());
            }
        }
        Ok(())
    }

    /// Reads what has come, and gives how many bytes: none only at the end of the reader. Fails if the
    /// read does, and by `TooLong` if there is no room.
    fn read_more<R: Read>(&mut self, reader: &mut R) -> Result<usize, ShellFault>
        ensures keeps { Keeps (prepend_known (read_ahead self.old) (R.remaining reader.old))
            (prepend_known (read_ahead self.new) (R.remaining reader.new)) }
        ensures count { IfOk result (λ n. length (read_ahead self.new) ≡ length (read_ahead self.old) + n) }
        ensures end { IfOk result (λ n. n ≡ 0 → IsAtEnd (R.remaining reader.new)) }
        ensures same { IfErr result (λ e. read_ahead self.new ≡ read_ahead self.old) }
        ensures long { IsErrOf result ShellFault.TooLong → length (read_ahead self.new) ≡ 4098 }
        ensures fails { IfErr result (λ e. (e ≡ ShellFault.Read) ⊎ (e ≡ ShellFault.TooLong)) }
    {
        self.move_to_front();
        if self.end == ROOM {
            return Err(ShellFault::TooLong);
        }
        match reader.read(&mut self.room[self.end..]) {
            Ok(count) => {
                self.end += count;
                Ok(count)
            }
            Err(_) => Err(ShellFault::Read),
        }
    }

    /// Moves the bytes to the front of the room.
    fn move_to_front(&mut self)
        ensures same { read_ahead self.new ≡ read_ahead self.old }
        ensures front { self.new.start ≡ 0 }
    {
        self.room.copy_within(self.start..self.end, 0);
        self.end -= self.start;
        self.start = 0;
    }

    /// So many of the last bytes stay.
    pub fn keep_last(&mut self, count: usize)
        requires { count ≤ length (read_ahead self.old) }
        ensures { read_ahead self.new ≡ drop (length (read_ahead self.old) - count) (read_ahead self.old) }
    {
        self.start = self.end - count;
    }
}
