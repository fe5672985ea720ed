//! What a line begins, and what comes after the colon of an entry.

ghost use Rattle.std.specs.Prelude.{◌≡◌, IfOk};
ghost use Rattle.yaml_subset.specs.Placed.{GivesOrHalts};
ghost use Rattle.yaml_subset.specs.Reading.{text_head, head_at, key_at, inline_at};
ghost use Rattle.yaml_subset.specs.ParserViews.{node_option_view, head_view, key_option_view};

use crate::fault::TextFaultKind;
use crate::flow::{begins_bracket, flow};
use crate::keys::KeyHashing;
use crate::place::Halt;
use crate::tree::Tree;
use crate::words::word;
use std::alloc::{AllocError, Global};
use std::borrow::CowSlice;
use yaml_bytes::{behind_blanks, behind_dash, is_over};

/// The most lists and mappings that may be one inside the other on one line.
pub const MAX_DEPTH: u8 = 8;

/// What a line begins.
#[derive(Drop)]
pub enum LineHead<'a> {
    /// An item: the text after its `-`.
    Item(&'a [u8]),
    /// An entry: its key, and the text after its colon.
    Entry(CowSlice<'a, u8>, &'a [u8]),
    /// A value, and nothing after it but a comment.
    Alone(Tree<'a>),
}

// What a line begins that is no item: an entry or a value.
#[tactic(auto, unfolding(crate::specs::Reading::text_head, crate::specs::Reading::word_head, crate::specs::Reading::flow_head))]
fn text_head(
    alloc: Global,
    hashing: KeyHashing,
    number: u32,
    text: &[u8],
) -> Result<LineHead<'_>, Halt>
    ensures { GivesOrHalts head_view result (text_head 8 number text.now) }
{
    if begins_bracket(text) {
        let (value, rest) = flow(alloc, hashing, MAX_DEPTH, number, text)?;
        if !is_over(rest) {
            return Err(Halt::at(TextFaultKind::Flow, number, rest.len()));
        }
        return Ok(LineHead::Alone(value));
    }
    let (value, rest) = word(alloc, number, false, text)?;
    match rest {
        [b':', after @ ..] => Ok(LineHead::Entry(value, after)),
        _ => Ok(LineHead::Alone(Tree::scalar(alloc, number, value)?)),
    }
}

/// What a line begins.
#[tactic(auto, unfolding(crate::specs::Reading::head_at, crate::specs::Reading::head_from))]
pub fn head_of(
    alloc: Global,
    hashing: KeyHashing,
    number: u32,
    text: &[u8],
) -> Result<LineHead<'_>, Halt>
    ensures { GivesOrHalts head_view result (head_at 8 number text.now) }
{
    if let Some(after) = behind_dash(text) {
        return Ok(LineHead::Item(after));
    }
    text_head(alloc, hashing, number, text)
}

/// The key of a line that is an entry, and the text after its colon. Any other line has none,
/// whatever is wrong with it.
#[tactic(auto, unfolding(crate::specs::Reading::key_at, crate::specs::Reading::key_from, crate::specs::Reading::key_in))]
pub fn key_of(
    alloc: Global,
    number: u32,
    text: &[u8],
) -> Result<Option<(CowSlice<'_, u8>, &[u8])>, AllocError>
    ensures { IfOk result (λ key. key_option_view key ≡ key_at number text.now) }
{
    match word(alloc, number, false, text) {
        Ok((key, [b':', after @ ..])) => Ok(Some((key, after))),
        Err(Halt::NoMemory) => Err(AllocError),
        _ => Ok(None),
    }
}

/// What comes after the colon of an entry: a value or nothing.
#[tactic(auto, unfolding(crate::specs::Reading::inline_at, crate::specs::Reading::node_from))]
pub fn inline(
    alloc: Global,
    hashing: KeyHashing,
    number: u32,
    text: &[u8],
) -> Result<Option<Tree<'_>>, Halt>
    ensures { GivesOrHalts node_option_view result (inline_at 8 number text.now) }
{
    let rest = behind_blanks(text);
    if is_over(rest) {
        return Ok(None);
    }
    match head_of(alloc, hashing, number, rest)? {
        LineHead::Alone(value) => Ok(Some(value)),
        LineHead::Item(_) => Err(Halt::at(TextFaultKind::NotInSubset, number, rest.len())),
        LineHead::Entry(_, after) => Err(Halt::at(
            TextFaultKind::NotInSubset,
            number,
            after.len() + 1,
        )),
    }
}
