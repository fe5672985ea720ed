//! What is written to: what keeps it, and writers that fail.

use crate::pen::Pen;
use std::alloc::Global;
use std::io::{self, ErrorKind, Write};

/// What is written to.
#[derive(Drop)]
pub enum Sink {
    Kept(Vec<u8>),
    /// Keeps what it is given, of which it takes one byte at each write.
    Slow(Vec<u8>),
    /// Takes nothing.
    Full,
    /// Takes what it is given, and fails from the write `fails_at` on.
    Failing { writes: u64, fails_at: u64 },
}

impl Sink {
    /// The writer that a text names, or one that keeps what it is given.
    pub fn of(alloc: Global, text: &str) -> Sink {
        match text {
            "(fails at its first write)\n" => Sink::failing_at(1),
            "(fails at its second write)\n" => Sink::failing_at(2),
            _ => Sink::Kept(Vec::new(alloc)),
        }
    }

    /// A writer that takes what it is given, and fails from this write on.
    pub fn failing_at(fails_at: u64) -> Sink {
        Sink::Failing {
            writes: 0,
            fails_at,
        }
    }

    /// How often it was written to, if it fails, and else 0.
    pub fn writes(&self) -> u64 {
        match self {
            Sink::Failing { writes, .. } => *writes,
            _ => 0,
        }
    }

    /// Shows how often it was written to, if it fails, or what it kept.
    pub fn show(&self, pen: &mut Pen) {
        self.show_kept(pen);
        if let Sink::Failing { writes, .. } = self {
            pen.put(" ");
            pen.value(*writes);
            pen.put("\n");
        }
    }

    /// Shows what it kept.
    pub fn show_kept(&self, pen: &mut Pen) {
        if let Sink::Kept(bytes) | Sink::Slow(bytes) = self {
            pen.put("\n");
            pen.put(std::str::from_utf8(bytes).unwrap_or("no UTF-8"));
        }
    }
}

impl Write for Sink {
    fn write(&mut self, buf: &[u8]) -> io::Result<usize> {
        match self {
            Sink::Kept(bytes) => bytes.write(buf),
            Sink::Slow(bytes) => bytes.write(buf.get(..1).unwrap_or(buf)),
            Sink::Full => Ok(0),
            Sink::Failing { writes, fails_at } => {
                *writes = writes.saturating_add(1);
                if *writes >= *fails_at {
                    return Err(io::Error::from(ErrorKind::Other));
                }
                Ok(buf.len())
            }
        }
    }

    fn flush(&mut self) -> io::Result<()> {
        Ok(())
    }
}
