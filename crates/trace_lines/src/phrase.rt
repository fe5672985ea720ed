//! Texts that lines of a trace have in common.

use std::alloc::{AllocError, Global};
use std::marker::Model;

/// How many bytes of a phrase its start has. Few phrases have more.
pub const PHRASE: usize = 64;

/// A text, made to be put on a page: its start is copied at once, whatever its length.
#[derive(Drop)]
pub struct Phrase {
    /// The first bytes of the text, and others after them if it is short.
    start: [u8; PHRASE],
    /// How many of them are of the text.
    len: usize,
    /// The text after them.
    rest: Vec<u8>,
}

impl Model for Phrase {
    ghost use Rattle.std.specs.Prelude.{ℕ, List, ◌++◌, take};

    ghost Value = { List ℕ };

    ghost view = { λ p. take p.len p.start ++ p.rest.items };

    ghost use Rattle.std.specs.Prelude.{◌≡◌, ◌<◌, ◌≤◌, []};

    ghost invariant = { λ p. (p.len ≤ 64) × (p.len < 64 → p.rest.items ≡ []) };
}

impl Phrase {
    ghost use Rattle.std.specs.Prelude.{◌≡◌, ◌<◌, ◌≤◌, ◌++◌, [], IfOk, length, take};

    /// This text. Fails only by memory.
    pub fn new(alloc: Global, text: &[u8]) -> Result<Phrase, AllocError>
        ensures { IfOk result (λ phrase. phrase ≡ text.now) }
    {
        let len = text.len().min(PHRASE);
        let (front, rest) = text.split_at(len);
        let mut start = [0; PHRASE];
        start[..len].copy_from_slice(front);
        let rest = Vec::from_slice(alloc, rest)?;
        Ok(Phrase { start, len, rest })
    }

    /// The start, how many of its bytes are of the text, and the text after them: none if the
    /// start is not full.
    pub fn parts(&self) -> (&[u8; PHRASE], usize, &[u8])
        ensures text { self.now ≡ take result.1 result.0.now ++ result.2.now }
        ensures within { result.1 ≤ 64 }
        ensures whole { result.1 < 64 → result.2.now ≡ [] }
    {
        (&self.start, self.len, &self.rest)
    }
}
