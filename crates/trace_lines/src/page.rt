//! Texts are put together on a page before they are written.

ghost use Rattle.std.specs.Prelude.{◌≡◌, ◌+◌, ◌≤◌, length, take, OnOk};
ghost use Rattle.trace_lines.specs.Pages.{IsPlaced};

use crate::phrase::{PHRASE, Phrase};
use std::alloc::{AllocError, Global};
use std::io::Write;
use std::marker::Model;
use std::simd::Simd;

/// How many bytes a page has.
const PAGE: usize = 4096;

/// How many bytes of a phrase are copied if it has no more, as most have.
pub const SHORT: usize = 32;

/// The writer failed.
#[derive(Clone, Copy)]
pub struct WriteFailed;

/// Text that is on its way to a writer: 4 KiB of it at most. It is written when there is no more room
/// on the page, and by `write_out`. A short text is put on a page in some twenty instructions, while a
/// write takes more than twice as many. What is on a page that is dropped is lost.
#[derive(Drop)]
pub struct Page {
    bytes: Vec<u8>,
    /// How many of them are text.
    len: usize,
}

impl Model for Page {
    ghost use Rattle.std.specs.Prelude.{ℕ, List, take};

    ghost Value = { List ℕ };

    ghost view = { λ p. take p.len p.bytes.items };

    ghost use Rattle.std.specs.Prelude.{◌≡◌, ◌≤◌, length};

    ghost invariant = { λ p. (length p.bytes.items ≡ 4096) × (p.len ≤ 4096) };
}

impl Page {
    ghost use Rattle.std.specs.Prelude.{◌≡◌, ◌+◌, ◌≤◌, ◌++◌, [], IfOk, OnOk, length, take};
    ghost use Rattle.std.specs.Io.KnownBytes.{Appends};
    ghost use Rattle.trace_lines.specs.Pages.{Puts};

    /// An empty page. Fails only by memory.
    pub fn new(alloc: Global) -> Result<Page, AllocError>
        ensures { IfOk result (λ page. page ≡ []) }
    {
        Ok(Page {
            bytes: vec![in alloc; 0; PAGE]?,
            len: 0,
        })
    }

    /// Puts a text after what is on the page. If the page has no room for it, what is on it is
    /// written first.
    #[inline(always)]
    pub(crate) fn put<W: Write>(&mut self, text: &[u8], writer: &mut W) -> Result<(), WriteFailed>
        ensures { OnOk result (Puts (W.contents writer.old) self.old (W.contents writer.new) self.new text.now) }
    {
        if text.len() > PAGE - self.len {
            return self.put_after_all(text, writer);
        }
        place(&mut self.bytes, self.len, text);
        self.len += text.len();
        Ok(())
    }

    /// Puts a phrase after what is on the page.
    #[inline(always)]
    pub(crate) fn put_phrase<W: Write>(
        &mut self,
        phrase: &Phrase,
        writer: &mut W,
    ) -> Result<(), WriteFailed>
        ensures { OnOk result (Puts (W.contents writer.old) self.old (W.contents writer.new) self.new phrase.now) }
    {
        let (start, len, rest) = phrase.parts();
        if len <= SHORT {
            return self.put_start::<SHORT, W>(start, len, writer);
        }
        self.put_start::<PHRASE, W>(start, len, writer)?;
        if rest.is_empty() {
            return Ok(());
        }
        self.put(rest, writer)
    }

    /// Puts the first `len` bytes of a text after what is on the page. The text has `N` bytes or more,
    /// of which the first `N` are copied, whatever `len` is.
    #[inline(always)]
    pub(crate) fn put_start<const N: usize, W: Write>(
        &mut self,
        text: &[u8],
        len: usize,
        writer: &mut W,
    ) -> Result<(), WriteFailed>
        requires few { len ≤ N }
        requires fits { N ≤ 4096 }
        requires long { N ≤ length text.now }
        ensures { OnOk result (Puts (W.contents writer.old) self.old (W.contents writer.new) self.new
            (take len text.now)) }
    {
        if self.len > PAGE - N {
            return self.put_after_all(&text[..len], writer);
        }
        self.add_start::<N>(text, len);
        Ok(())
    }

    /// Makes room for `N` bytes more: if the page has none, what is on it is written.
    #[inline(always)]
    pub(crate) fn make_room<const N: usize, W: Write>(
        &mut self,
        writer: &mut W,
    ) -> Result<(), WriteFailed>
        requires { N ≤ 4096 }
        ensures keeps { OnOk result (Puts (W.contents writer.old) self.old (W.contents writer.new) self.new []) }
        ensures room { OnOk result (length self.new + N ≤ 4096) }
    {
        if self.len > PAGE - N {
            return self.write_full(writer);
        }
        Ok(())
    }

    /// Adds the first `len` bytes of a text, as `put_start` does, where the page has room for `N` bytes.
    #[inline(always)]
    pub(crate) fn add_start<const N: usize>(&mut self, text: &[u8], len: usize)
        requires few { len ≤ N }
        requires long { N ≤ length text.now }
        requires room { length self.old + N ≤ 4096 }
        ensures { self.new ≡ self.old ++ take len text.now }
    {
        place_start::<N>(&mut self.bytes, self.len, text);
        self.len += len;
    }

    /// Adds a phrase, where the page has room for its start and `MORE` bytes more. It has room for as
    /// many after it.
    #[inline(always)]
    pub(crate) fn add_phrase<const MORE: usize, W: Write>(
        &mut self,
        phrase: &Phrase,
        writer: &mut W,
    ) -> Result<(), WriteFailed>
        requires { length self.old + 32 + MORE ≤ 4096 }
        ensures puts { OnOk result (Puts (W.contents writer.old) self.old (W.contents writer.new) self.new phrase.now) }
        ensures room { OnOk result (length self.new + MORE ≤ 4096) }
    {
        let (start, len, _) = phrase.parts();
        if len <= SHORT {
            self.add_start::<SHORT>(start, len);
            return Ok(());
        }
        self.put_phrase(phrase, writer)?;
        self.make_room::<MORE, W>(writer)
    }

    /// Writes what is on the page, and then a text.
    #[cold]
    #[inline(never)]
    fn put_after_all<W: Write>(&mut self, text: &[u8], writer: &mut W) -> Result<(), WriteFailed>
        ensures { OnOk result (Puts (W.contents writer.old) self.old (W.contents writer.new) self.new text.now) }
    {
        self.write_out(writer)?;
        writer.write_all(text).map_err(|_| WriteFailed)
    }

    /// As `write_out`, where the page is too full.
    #[cold]
    #[inline(never)]
    fn write_full<W: Write>(&mut self, writer: &mut W) -> Result<(), WriteFailed>
        ensures empty { self.new ≡ [] }
        ensures keeps { OnOk result (Puts (W.contents writer.old) self.old (W.contents writer.new) self.new []) }
    {
        self.write_out(writer)
    }

    /// Writes what is on the page, which is empty then.
    pub fn write_out<W: Write>(&mut self, writer: &mut W) -> Result<(), WriteFailed>
        ensures empty { self.new ≡ [] }
        ensures writes { OnOk result (Appends (W.contents writer.old) (W.contents writer.new) self.old) }
    {
        let len = self.len;
        self.len = 0;
        writer
            .write_all(&self.bytes[..len])
            .map_err(|_| WriteFailed)
    }
}

/// Puts a text at a place of some bytes that have room for it there. A text of up to 32 bytes is put
/// by two copies of a fixed size, which may overlap. The compiler makes few instructions of them.
#[inline(always)]
fn place(bytes: &mut [u8], at: usize, text: &[u8])
    requires { at + length text.now ≤ length bytes.old }
    ensures { IsPlaced at text.now bytes.old bytes.new }
{
    let len = text.len();
    if len > 32 {
        bytes[at..at + len].copy_from_slice(text);
    } else if len >= 16 {
        place_ends::<16>(bytes, at, text);
    } else if len >= 8 {
        place_ends::<8>(bytes, at, text);
    } else if len >= 4 {
        place_ends::<4>(bytes, at, text);
    } else if len >= 2 {
        place_ends::<2>(bytes, at, text);
    } else if len == 1 {
        bytes[at] = text[0];
    }
}

/// Puts a text of `N` to 2 `N` bytes at a place: its first `N` bytes, and its last ones.
#[inline(always)]
fn place_ends<const N: usize>(bytes: &mut [u8], at: usize, text: &[u8])
    requires fits { at + length text.now ≤ length bytes.old }
    requires long { N ≤ length text.now }
    requires short { length text.now ≤ N + N }
    ensures { IsPlaced at text.now bytes.old bytes.new }
{
    let last = text.len() - N;
    place_start::<N>(bytes, at, text);
    place_start::<N>(bytes, at + last, &text[last..]);
}

/// Puts the first `N` bytes of a text at a place.
#[inline(always)]
fn place_start<const N: usize>(bytes: &mut [u8], at: usize, text: &[u8])
    requires fits { at + N ≤ length bytes.old }
    requires long { N ≤ length text.now }
    ensures { IsPlaced at (take N text.now) bytes.old bytes.new }
{
    Simd::<u8, N>::from_slice(text).copy_to_slice(&mut bytes[at..]);
}
