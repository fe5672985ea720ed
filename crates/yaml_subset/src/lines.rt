//! The lines of a text that have content.

ghost use Rattle.std.specs.Prelude.{◌≡◌, ◌++◌, ◌≤◌, ◌^◌, length, IfOk};
ghost use Rattle.std.specs.List.{list_all};
ghost use Rattle.std.specs.Option.{option_to_list};
ghost use Rattle.std.specs.Str.{chars};
ghost use Rattle.yaml_bytes.specs.Lines.{lines_of};
ghost use Rattle.yaml_subset.specs.Reading.{utf8_front, forbidden_left, blemish_at, content_at, contents_from};
ghost use Rattle.yaml_subset.specs.ParserViews.{is_plain_byte, lines_view, line_option_view, GivesOrFaults};

use crate::fault::TextFaultKind;
use crate::line::TextLine;
use crate::place::PlacedFault;
use std::alloc::{AllocError, Global};
use yaml_bytes::{
    begins_blank, behind_blanks, behind_spaces, is_document_marker, is_forbidden, is_over,
    spaces_len, split_line,
};

// The front of a line that is UTF-8.
fn utf8_front(raw: &[u8]) -> &str
    ensures { result.now ≡ utf8_front raw.now }
{
    match std::str::from_utf8(raw) {
        Ok(text) => text,
        Err(e) => match std::str::from_utf8(&raw[..e.valid_up_to()]) {
            Ok(front) => front,
            Err(_) => "",
        },
    }
}

// How many bytes have the characters from the first one on that no line may have.
fn forbidden_left(text: &str) -> usize
    ensures within { result ≤ length text.now }
    ensures value { result ≡ forbidden_left (chars text.now) }
{
    let mut size = text.len();
    for c in text.chars() {
        if is_forbidden(c) {
            return size;
        }
        size -= c.len_utf8();
    }
    0
}

// Whether a byte is an ASCII character that every line may have.
fn is_plain_byte(b: u8) -> bool
    ensures { result ≡ is_plain_byte b }
{
    ((b >= b' ') & (b <= b'~')) | (b == b'\t')
}

// Whether a line has no other bytes than these, as nearly all lines have. So all bytes are looked at,
// which is quicker than to stop at the first other one.
fn is_plain(raw: &[u8]) -> bool
    ensures { result ≡ list_all is_plain_byte raw.now }
{
    let mut plain = true;
    let mut rest = raw;
    while let [b, after @ ..] = rest {
        plain &= is_plain_byte(*b);
        rest = after;
    }
    plain
}

// The first character of a line that none may have, or its first bytes that are not UTF-8.
#[tactic(auto, unfolding(crate::specs::Reading::blemish_at))]
fn blemish(number: u32, raw: &[u8]) -> Option<PlacedFault>
    ensures { result ≡ blemish_at number raw.now }
{
    if is_plain(raw) {
        return None;
    }
    let front = utf8_front(raw);
    let behind = raw.len() - front.len();
    let size = forbidden_left(front);
    if size > 0 {
        return Some(PlacedFault::new(TextFaultKind::NotInSubset, number, size + behind));
    }
    if front.len() < raw.len() {
        return Some(PlacedFault::new(TextFaultKind::NotUtf8, number, behind));
    }
    None
}

// The content of a line, or nothing if it is blank or a comment.
#[tactic(auto, unfolding(crate::specs::Reading::content_at))]
fn content(number: u32, raw: &[u8]) -> Result<Option<TextLine<'_>>, PlacedFault>
    ensures { GivesOrFaults line_option_view result (content_at number raw.now) }
{
    if is_over(behind_blanks(raw)) {
        return Ok(None);
    }
    let text = behind_spaces(raw);
    if begins_blank(text) {
        return Err(PlacedFault::new(TextFaultKind::Tab, number, text.len()));
    }
    if is_document_marker(raw) {
        return Err(PlacedFault::new(TextFaultKind::NotInSubset, number, raw.len()));
    }
    Ok(Some(TextLine {
        number,
        indent: spaces_len(raw),
        raw,
    }))
}

/// The lines with content up to the first line that has a fault by itself, and that fault. If
/// only the line's characters are at fault, it is the last of the lines.
#[derive(Drop)]
pub struct Contents<'a> {
    pub lines: Vec<TextLine<'a>>,
    pub fault: Option<PlacedFault>,
}

// Puts a line after others, if there is one.
fn push_line<'a>(
    lines: &mut Vec<TextLine<'a>>,
    kept_line: Option<TextLine<'a>>,
) -> Result<(), AllocError>
    ensures { IfOk result (λ _. lines_view lines.new.items
        ≡ lines_view lines.old.items ++ option_to_list (line_option_view kept_line.entry)) }
{
    if let Some(line) = kept_line {
        lines.push(line)?;
    }
    Ok(())
}

/// The lines of a text that have content.
pub fn content_lines(alloc: Global, text: &[u8]) -> Result<Contents<'_>, AllocError>
    requires { length text.now ≤ 2 ^ 20 }
    ensures { IfOk result (λ kept_line. contents_from 1 (lines_of text.now)
        ≡ (lines_view kept_line.lines.items, kept_line.fault)) }
{
    let mut lines = Vec::new(alloc);
    let mut number = 1;
    let mut rest = Some(text);
    while let Some(current) = rest {
        let (raw, after) = split_line(current);
        let kept_line = match content(number, raw) {
            Ok(kept_line) => kept_line,
            Err(fault) => {
                return Ok(Contents {
                    lines,
                    fault: Some(fault),
                });
            }
        };
        push_line(&mut lines, kept_line)?;
        if let Some(fault) = blemish(number, raw) {
            return Ok(Contents {
                lines,
                fault: Some(fault),
            });
        }
        rest = after;
        number += 1;
    }
    Ok(Contents { lines, fault: None })
}
