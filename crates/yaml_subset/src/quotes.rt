//! Texts in quotes.

ghost use Rattle.std.specs.Prelude.{◌≡◌, ◌≤◌, length};
ghost use Rattle.std.specs.List.{prefix_len};
ghost use Rattle.yaml_subset.specs.Placed.{GivesOrHalts};
ghost use Rattle.yaml_subset.specs.Quoted.{begins_single, is_itself_in_single, is_itself_in_double, single_at};
ghost use Rattle.yaml_subset.specs.Quoted.{double_byte_at, double_at, unescape};
ghost use Rattle.yaml_subset.specs.ParserViews.{quoted_view, word_view, byte_view};

use crate::fault::TextFaultKind;
use crate::place::Halt;
use std::alloc::Global;
use std::borrow::CowSlice;

// Whether a single quote comes first.
fn begins_single(text: &[u8]) -> bool
    ensures { result ≡ begins_single text.now }
{
    match text {
        [] => false,
        [b, ..] => *b == b'\'',
    }
}

// How many bytes come first that are written as themselves between single quotes.
fn single_len(text: &[u8]) -> usize
    ensures within { result ≤ length text.now }
    ensures value { result ≡ prefix_len is_itself_in_single text.now }
{
    text.iter().take_while(|b| **b != b'\'').count()
}

// The value of a text in single quotes, byte by byte.
fn each_single(alloc: Global, number: u32, text: &[u8]) -> Result<(Vec<u8>, &[u8]), Halt>
    ensures { GivesOrHalts quoted_view result (single_at number text.now) }
{
    let mut value = Vec::new(alloc);
    let mut rest = text;
    while let [b, after @ ..] = rest {
        rest = after;
        if *b == b'\'' {
            if !begins_single(after) {
                return Ok((value, after));
            }
            rest = &after[1..];
        }
        value.push(*b)?;
    }
    Err(Halt::at(TextFaultKind::Quote, number, 0))
}

/// The value of a text in single quotes, read from after the first quote on, and what follows the last.
/// It has bytes of its own only if a quote is written in it.
pub fn single(alloc: Global, number: u32, text: &[u8]) -> Result<(CowSlice<'_, u8>, &[u8]), Halt>
    ensures { GivesOrHalts word_view result (single_at number text.now) }
{
    let (front, end) = text.split_at(single_len(text));
    if let [_, after @ ..] = end
        && !begins_single(after)
    {
        return Ok((CowSlice::Borrowed(front), after));
    }
    let (value, after) = each_single(alloc, number, text)?;
    Ok((CowSlice::Owned(value), after))
}

// What comes after a backslash for a byte.
fn unescape(b: u8) -> Option<u8>
    ensures { result ≡ unescape b }
{
    match b {
        b'\\' => Some(b'\\'),
        b'"' => Some(b'"'),
        b'n' => Some(b'\n'),
        b't' => Some(b'\t'),
        _ => None,
    }
}

// The byte at the front of a text in double quotes, which an escape may write, and what follows it.
#[tactic(auto, unfolding(crate::specs::Quoted::double_byte_at))]
fn double_byte(number: u32, text: &[u8]) -> Result<(u8, &[u8]), Halt>
    ensures { GivesOrHalts byte_view result (double_byte_at number text.now) }
{
    match text {
        [b'\\', e, after @ ..] => match unescape(*e) {
            Some(b) => Ok((b, after)),
            None => Err(Halt::at(TextFaultKind::Quote, number, text.len())),
        },
        [b'\\'] => Err(Halt::at(TextFaultKind::Quote, number, 1)),
        [b, after @ ..] => Ok((*b, after)),
        [] => Err(Halt::at(TextFaultKind::Quote, number, 0)),
    }
}

// Whether a byte is written as itself between double quotes.
fn is_itself_in_double(b: u8) -> bool
    ensures { result ≡ is_itself_in_double b }
{
    !(b == b'"' || b == b'\\')
}

// How many bytes come first that are written as themselves between double quotes.
fn double_len(text: &[u8]) -> usize
    ensures within { result ≤ length text.now }
    ensures value { result ≡ prefix_len is_itself_in_double text.now }
{
    text.iter().take_while(|b| is_itself_in_double(**b)).count()
}

// The value of a text in double quotes, byte by byte.
fn each_double(alloc: Global, number: u32, text: &[u8]) -> Result<(Vec<u8>, &[u8]), Halt>
    ensures { GivesOrHalts quoted_view result (double_at number text.now) }
{
    let mut value = Vec::new(alloc);
    let mut rest = text;
    while let [b, after @ ..] = rest {
        if *b == b'"' {
            return Ok((value, after));
        }
        let (byte, more) = double_byte(number, rest)?;
        value.push(byte)?;
        rest = more;
    }
    Err(Halt::at(TextFaultKind::Quote, number, 0))
}

/// The value of a text in double quotes, read from after the first quote on, and what follows the last.
/// It has bytes of its own only if a backslash is in it.
pub fn double(alloc: Global, number: u32, text: &[u8]) -> Result<(CowSlice<'_, u8>, &[u8]), Halt>
    ensures { GivesOrHalts word_view result (double_at number text.now) }
{
    let (front, end) = text.split_at(double_len(text));
    if let [b, after @ ..] = end
        && *b == b'"'
    {
        return Ok((CowSlice::Borrowed(front), after));
    }
    let (value, after) = each_double(alloc, number, text)?;
    Ok((CowSlice::Owned(value), after))
}
