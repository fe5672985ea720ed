//! What is read: texts, and readers that fail.

ghost use Rattle.std.specs.Prelude.{◌≤◌, length};

use crate::pen::Pen;
use std::io::{self, ErrorKind, Read};

/// What is read.
#[derive(Drop)]
pub enum Source<'a> {
    Text(&'a [u8]),
    /// A byte at each read, and a failure from the read `fails_at` on.
    Bytes {
        reads: u64,
        fails_at: u64,
    },
    /// The bytes of a text, one at each read. The read `stops_at` gives nothing, and the one of `fails_at` fails, as
    /// if it was interrupted.
    Slow {
        text: &'a [u8],
        reads: u64,
        stops_at: u64,
        fails_at: u64,
    },
}

impl<'a> Source<'a> {
    /// The reader that a text names, or the reader of the text.
    pub fn of(text: &'a str) -> Source<'a> {
        match text {
            "(never ends)\n" => bytes_until(u64::MAX),
            "(fails at its second read)\n" => bytes_until(2),
            _ => Source::Text(text.as_bytes()),
        }
    }

    /// A reader that gives the bytes of a text, one at each read.
    pub fn slow(text: &'a [u8]) -> Source<'a> {
        Source::slow_until(text, u64::MAX, u64::MAX)
    }

    /// The same, but for a read that gives nothing, and one that fails.
    pub fn slow_until(text: &'a [u8], stops_at: u64, fails_at: u64) -> Source<'a> {
        Source::Slow {
            text,
            reads: 0,
            stops_at,
            fails_at,
        }
    }

    /// How often it was read. Not counted, and 0, if a read gives all.
    pub fn reads(&self) -> u64 {
        match self {
            Source::Text(_) => 0,
            Source::Bytes { reads, .. } => *reads,
            Source::Slow { reads, .. } => *reads,
        }
    }

    /// Shows how often it was read, if that is counted.
    pub fn show(&self, pen: &mut Pen) {
        if let Source::Text(_) = self {
            return;
        }
        pen.put(" ");
        pen.value(self.reads());
    }
}

fn bytes_until<'a>(fails_at: u64) -> Source<'a> {
    Source::Bytes { reads: 0, fails_at }
}

impl Read for Source<'_> {
    fn read(&mut self, buf: &mut [u8]) -> io::Result<usize> {
        match self {
            Source::Text(text) => text.read(buf),
            Source::Bytes { reads, fails_at } => {
                *reads = reads.saturating_add(1);
                if *reads >= *fails_at {
                    return Err(io::Error::from(ErrorKind::Other));
                }
                Ok(put_byte(buf, b'@'))
            }
            Source::Slow {
                text,
                reads,
                stops_at,
                fails_at,
            } => {
                *reads = reads.saturating_add(1);
                if *reads == *fails_at {
                    return Err(io::Error::from(ErrorKind::Interrupted));
                }
                match text.split_first() {
                    Some((first, rest)) if *reads != *stops_at => {
                        *text = rest;
                        Ok(put_byte(buf, *first))
                    }
                    _ => Ok(0),
                }
            }
        }
    }
}

/// Puts a byte at the front of the buffer, if it has room, and says how many were put.
fn put_byte(buf: &mut [u8], byte: u8) -> usize
    ensures { result ≤ length buf.new }
{
    match buf {
        [first, ..] => {
            *first = byte;
            1
        }
        [] => 0,
    }
}
