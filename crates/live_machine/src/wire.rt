//! Texts on their way to a link.

use crate::link::Link;
use std::io::{self, BufWriter, Write};

/// A link with room for an answer: what is written is told when the room is full, and by `flush`.
pub type Wire<L> = BufWriter<LinkWriter<L>>;

/// A link, as a writer: what is written is told at once.
#[derive(Drop)]
pub struct LinkWriter<L: Link> {
    pub link: L,
}

impl<L: Link> Write for LinkWriter<L> {
    ghost use Rattle.live_machine.specs.Wires.{packed_report};

    ghost contents = { λ w. packed_report (L.report w.link) };

    fn write(&mut self, buf: &[u8]) -> io::Result<usize> {
        self.link.tell(buf)
    }

    fn flush(&mut self) -> io::Result<()> {
        Ok(())
    }
}
