//! Words: the keys and scalars of a line, plain or in quotes.

ghost use Rattle.std.specs.Prelude.{◌≡◌};
ghost use Rattle.yaml_subset.specs.Placed.{GivesOrHalts};
ghost use Rattle.yaml_subset.specs.Words.{breaks_flow, may_follow, misfit, plain_word_at, behind_quote, word_at};
ghost use Rattle.yaml_bytes.specs.View.{rest_view};
ghost use Rattle.yaml_subset.specs.ParserViews.{word_view};

use crate::fault::TextFaultKind;
use crate::place::Halt;
use crate::quotes::{double, single};
use std::alloc::Global;
use std::borrow::CowSlice;
use yaml_bytes::{
    begins_bare_colon, begins_blank, begins_flow_indicator, begins_gap, begins_word, behind_blanks,
    is_flow_indicator, is_mark, split_word, trim_blanks,
};

// Whether in flow a `:` comes first, and directly after it one of `, [ ] { }`.
fn breaks_flow(flow: bool, text: &[u8]) -> bool
    ensures { result ≡ breaks_flow flow text.now }
{
    flow && begins_bare_colon(text)
}

// Whether a text in quotes may come before this, after a blank or not.
fn may_follow(flow: bool, blank: bool, text: &[u8]) -> bool
    ensures { result ≡ may_follow flow blank text.now }
{
    match text {
        [] => true,
        [b, after @ ..] => {
            (flow && (*b == b',' || *b == b']' || *b == b'}'))
                || (*b == b'#' && blank)
                || (*b == b':' && begins_gap(after))
        }
    }
}

// Why no word begins so.
fn misfit(flow: bool, text: &[u8]) -> TextFaultKind
    ensures { result ≡ misfit flow text.now }
{
    let in_flow = match text {
        [] => true,
        [b, after @ ..] => {
            is_flow_indicator(*b) || (is_mark(*b) && begins_flow_indicator(after))
        }
    };
    if flow && in_flow {
        TextFaultKind::Flow
    } else {
        TextFaultKind::NotInSubset
    }
}

// A plain word.
#[tactic(auto, unfolding(crate::specs::Words::plain_word_at))]
fn plain(number: u32, flow: bool, text: &[u8]) -> Result<(CowSlice<'_, u8>, &[u8]), Halt>
    ensures { GivesOrHalts word_view result (plain_word_at number flow text.now) }
{
    if !begins_word(flow, text) {
        return Err(Halt::at(misfit(flow, text), number, text.len()));
    }
    let (front, rest) = split_word(flow, text);
    if breaks_flow(flow, rest) {
        return Err(Halt::at(TextFaultKind::Flow, number, rest.len()));
    }
    Ok((CowSlice::Borrowed(trim_blanks(front)), rest))
}

// What comes after a text in quotes and the blanks that follow it, read from after the closing quote on.
#[tactic(auto, unfolding(crate::specs::Words::behind_quote))]
fn behind_quote(number: u32, flow: bool, after: &[u8]) -> Result<&[u8], Halt>
    ensures { GivesOrHalts rest_view result (behind_quote number flow after.now) }
{
    let rest = behind_blanks(after);
    if may_follow(flow, begins_blank(after), rest) {
        return Ok(rest);
    }
    let kind = if breaks_flow(flow, rest) {
        TextFaultKind::Flow
    } else {
        TextFaultKind::Quote
    };
    Err(Halt::at(kind, number, rest.len()))
}

/// The word at the front of a text that does not begin with a blank: its value, and what comes
/// after the word and its blanks. What comes after is nothing, a comment, `:` before a gap, or in
/// flow one of `, [ ] { }`.
///
/// # Errors
///
/// - `Quote`: a text in quotes is not closed, has an unknown escape, or is followed by other text.
/// - `Flow`: in flow, no word comes before one of `, [ ] { }`, or `:` comes right before one of
///   these.
/// - `NotInSubset`: no word can begin with this character.
/// - `NoMemory`: memory ran out.
#[tactic(auto, unfolding(crate::specs::Words::word_at))]
pub fn word(
    alloc: Global,
    number: u32,
    flow: bool,
    text: &[u8],
) -> Result<(CowSlice<'_, u8>, &[u8]), Halt>
    ensures { GivesOrHalts word_view result (word_at number flow text.now) }
{
    let (value, after) = match text {
        [b'\'', inside @ ..] => single(alloc, number, inside)?,
        [b'"', inside @ ..] => double(alloc, number, inside)?,
        _ => return plain(number, flow, text),
    };
    Ok((value, behind_quote(number, flow, after)?))
}
