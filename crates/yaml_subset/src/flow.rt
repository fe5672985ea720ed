//! Lists in brackets and mappings in braces, on one line.

ghost use Rattle.std.specs.Prelude.{◌≡◌, [], ◌∷◌, ◌++◌, map, IfOk};
ghost use Rattle.yaml_subset.specs.Keys.{copies_view, HasNoneOrAll};
ghost use Rattle.yaml_subset.specs.Placed.{GivesOrHalts};
ghost use Rattle.yaml_subset.specs.Flow.{keys_of, begins_with, begins_colon, begins_bracket, is_ended, start_at};
ghost use Rattle.yaml_subset.specs.Flow.{fault_in_flow, behind_close_at, parted_at, behind_colon_at, flow_pair_at};
ghost use Rattle.yaml_subset.specs.Flow.{flow_list_at, flow_mapping_at, bracketed_at, flow_value_at, flow_at};
ghost use Rattle.yaml_subset.specs.View.{pair_view};
ghost use Rattle.yaml_bytes.specs.View.{rest_view};
ghost use Rattle.yaml_subset.specs.ParserViews.{flow_view, flow_pair_view};

use crate::fault::TextFaultKind;
use crate::keys::{KeyHashing, KeySet, is_too_long, no_keys, take_next};
use crate::place::{Halt, PlacedFault};
use crate::tree::{Key, Tree};
use crate::words::word;
use std::alloc::Global;
use yaml_bytes::{begins_blank, begins_gap, behind_blanks};

// Whether a byte comes first.
fn begins_with(byte: u8, text: &[u8]) -> bool
    ensures { result ≡ begins_with byte text.now }
{
    match text {
        [] => false,
        [b, ..] => *b == byte,
    }
}

// Whether `:` comes first, before a gap.
fn begins_colon(text: &[u8]) -> bool
    ensures { result ≡ begins_colon text.now }
{
    match text {
        [] => false,
        [b, after @ ..] => *b == b':' && begins_gap(after),
    }
}

/// Whether a bracket or brace opens.
pub fn begins_bracket(text: &[u8]) -> bool
    ensures { result ≡ begins_bracket text.now }
{
    match text {
        [] => false,
        [b, ..] => *b == b'[' || *b == b'{',
    }
}

// Whether the line's text ends here: by its end, or by a comment if a blank is in front.
fn is_ended(blank: bool, text: &[u8]) -> bool
    ensures { result ≡ is_ended blank text.now }
{
    match text {
        [] => true,
        [b, ..] => blank && *b == b'#',
    }
}

// What comes after a bracket, a comma or a colon and the blanks that follow it.
#[tactic(auto, unfolding(crate::specs::Flow::start_at))]
fn start(number: u32, after: &[u8]) -> Result<&[u8], Halt>
    ensures { GivesOrHalts rest_view result (start_at number after.now) }
{
    let text = behind_blanks(after);
    if is_ended(begins_blank(after), text) {
        return Err(Halt::at(TextFaultKind::Flow, number, 0));
    }
    Ok(text)
}

// What is wrong with a text in the place of a comma, of the closing byte, or of a
// key's colon.
#[tactic(auto, unfolding(crate::specs::Flow::fault_in_flow))]
fn fault_in_flow(number: u32, text: &[u8]) -> PlacedFault
    ensures { result ≡ fault_in_flow number text.now }
{
    if is_ended(true, text) {
        return PlacedFault::new(TextFaultKind::Flow, number, 0);
    }
    let kind = if begins_colon(text) {
        TextFaultKind::NotInSubset
    } else {
        TextFaultKind::Flow
    };
    PlacedFault::new(kind, number, text.len())
}

// From the closing byte to what comes after it and the blanks that follow it.
#[tactic(auto, unfolding(crate::specs::Flow::behind_close_at))]
fn behind_close(number: u32, text: &[u8]) -> Result<&[u8], Halt>
    ensures { GivesOrHalts rest_view result (behind_close_at number text.now) }
{
    match text {
        [] => Err(Halt::at(TextFaultKind::Flow, number, 0)),
        [_, after @ ..] => {
            if begins_with(b'#', after) {
                return Err(Halt::at(TextFaultKind::Flow, number, after.len()));
            }
            Ok(behind_blanks(after))
        }
    }
}

// From the end of a part to the next one, or to the closing byte.
#[tactic(auto, unfolding(crate::specs::Flow::parted_at))]
fn behind_part(number: u32, close: u8, text: &[u8]) -> Result<&[u8], Halt>
    ensures { GivesOrHalts rest_view result (parted_at number close text.now) }
{
    match text {
        [b',', after @ ..] => start(number, after),
        [b, ..] if *b == close => Ok(text),
        _ => Err(Halt::At(fault_in_flow(number, text))),
    }
}

// From a key's colon to what comes after it.
#[tactic(auto, unfolding(crate::specs::Flow::behind_colon_at))]
fn behind_colon(number: u32, text: &[u8]) -> Result<&[u8], Halt>
    ensures { GivesOrHalts rest_view result (behind_colon_at number text.now) }
{
    match text {
        [b':', after @ ..] if begins_gap(after) => Ok(after),
        _ => Err(Halt::At(fault_in_flow(number, text))),
    }
}

// A value in a list or mapping: a word, or a list or mapping with at most so many inside the other.
#[cycle(flow)]
#[tactic(auto, unfolding(crate::specs::Flow::flow_value_at))]
fn value(
    alloc: Global,
    hashing: KeyHashing,
    levels: u8,
    number: u32,
    text: &[u8],
) -> Result<(Tree<'_>, &[u8]), Halt>
    ensures { GivesOrHalts flow_view result (flow_value_at number (flow_at levels number) text.now) }
{
    if begins_bracket(text) {
        return flow(alloc, hashing, levels, number, text);
    }
    let (text, rest) = word(alloc, number, true, text)?;
    Ok((Tree::scalar(alloc, number, text)?, rest))
}

// The pair at the front, in a mapping with these pairs before it. The set has their keys, or none.
#[cycle(flow)]
#[tactic(auto, unfolding(crate::specs::Flow::flow_pair_at))]
fn pair<'a>(
    alloc: Global,
    hashing: KeyHashing,
    levels: u8,
    number: u32,
    pairs: &[(Key<'a>, Tree<'a>)],
    keys: &mut KeySet<'a>,
    text: &'a [u8],
) -> Result<((Key<'a>, Tree<'a>), &'a [u8]), Halt>
    requires { HasNoneOrAll (copies_view keys.old) (keys_of (map pair_view pairs.now)) }
    ensures value { GivesOrHalts flow_pair_view result
        (flow_pair_at number (flow_value_at number (flow_at levels number)) (keys_of (map pair_view pairs.now))
        text.now) }
    ensures known { IfOk result (λ r. HasNoneOrAll (copies_view keys.new)
        (keys_of (map pair_view pairs.now) ++ (pair_view r.0).key ∷ [])) }
{
    let (key, colon) = word(alloc, number, true, text)?;
    let after = behind_colon(number, colon)?;
    let fresh = take_next(keys, pairs, &key)?;
    if !fresh {
        return Err(Halt::at(TextFaultKind::DuplicateKey, number, text.len()));
    }
    if is_too_long(&text[..text.len() - colon.len()]) {
        return Err(Halt::at(TextFaultKind::NotInSubset, number, colon.len()));
    }
    let (value, rest) = value(alloc, hashing, levels, number, start(number, after)?)?;
    Ok((
        (
            Key {
                line: number,
                text: key,
            },
            value,
        ),
        rest,
    ))
}

// How many pairs a mapping surely has, of whose text this is left. Most have few, so no room is wasted.
fn least_pairs(text: &[u8]) -> usize {
    if begins_with(b'}', text) { 0 } else { 1 }
}

// The most items for which room is made before they are read.
const LIKELY_ITEMS: usize = 16;

// How many items a list likely has, of whose text this is left: one more than there are commas before a bracket closes.
fn likely_items(text: &[u8]) -> usize {
    let mut items = usize::from(!begins_with(b']', text));
    for byte in text {
        if *byte == b']' || items == LIKELY_ITEMS {
            break;
        }
        items = items.saturating_add(usize::from(*byte == b','));
    }
    items
}

// A list, read from after its bracket on.
#[cycle(flow)]
#[tactic(auto, unfolding(crate::specs::Flow::flow_list_at))]
fn list(
    alloc: Global,
    hashing: KeyHashing,
    levels: u8,
    number: u32,
    after: &[u8],
) -> Result<(Tree<'_>, &[u8]), Halt>
    ensures { GivesOrHalts flow_view result
        (flow_list_at number (flow_value_at number (flow_at levels number)) after.now) }
{
    let mut text = start(number, after)?;
    let mut items = Vec::with_capacity(alloc, likely_items(text))?;
    while !begins_with(b']', text) {
        let (item, rest) = value(alloc, hashing, levels, number, text)?;
        items.push(item)?;
        text = behind_part(number, b']', rest)?;
    }
    let rest = behind_close(number, text)?;
    items.shrink_to_fit();
    Ok((Tree::List(number, items), rest))
}

// A mapping, read from after its brace on.
#[cycle(flow)]
#[tactic(auto, unfolding(crate::specs::Flow::flow_mapping_at))]
fn mapping(
    alloc: Global,
    hashing: KeyHashing,
    levels: u8,
    number: u32,
    after: &[u8],
) -> Result<(Tree<'_>, &[u8]), Halt>
    ensures { GivesOrHalts flow_view result
        (flow_mapping_at number (flow_value_at number (flow_at levels number)) after.now) }
{
    let mut keys = no_keys(alloc, hashing);
    let mut text = start(number, after)?;
    let mut pairs = Vec::with_capacity(alloc, least_pairs(text))?;
    while !begins_with(b'}', text) {
        let (next, rest) = pair(alloc, hashing, levels, number, &pairs, &mut keys, text)?;
        pairs.push(next)?;
        text = behind_part(number, b'}', rest)?;
    }
    let rest = behind_close(number, text)?;
    pairs.shrink_to_fit();
    Ok((Tree::Map(number, pairs), rest))
}

/// The list or mapping at the front of a text that begins with `[` or `{`, with at most so many of
/// them one inside the other, and what comes after it and the blanks that follow it. Each node in it has
/// the line's number. A `#` there begins a comment.
///
/// The error is the leftmost fault: what is wrong with a word at its place; `DuplicateKey` at the second
/// of two equal keys; `NotInSubset` at the colon of a key that is too long, and at a `:` before a gap
/// that is no key's; `TooDeep` at a bracket or brace; `Flow` if something else is in the
/// place of a comma, a colon, a value or the closing bracket or brace, and at the line's end if
/// this is missing.
#[cycle(flow)]
#[tactic(auto, unfolding(crate::specs::Flow::flow_at, crate::specs::Flow::bracketed_at))]
pub fn flow(
    alloc: Global,
    hashing: KeyHashing,
    levels: u8,
    number: u32,
    text: &[u8],
) -> Result<(Tree<'_>, &[u8]), Halt>
    ensures { GivesOrHalts flow_view result (flow_at levels number text.now) }
{
    if levels == 0 {
        return Err(Halt::at(TextFaultKind::TooDeep, number, text.len()));
    }
    match text {
        [b'[', after @ ..] => list(alloc, hashing, levels - 1, number, after),
        [b'{', after @ ..] => mapping(alloc, hashing, levels - 1, number, after),
        _ => Err(Halt::at(TextFaultKind::Flow, number, text.len())),
    }
}
