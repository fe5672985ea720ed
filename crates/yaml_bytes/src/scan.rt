//! Passes over the bytes of a line.

ghost use Rattle.std.specs.Prelude.{◌≡◌, ◌≤◌, ◌&&◌, nat_le, length};
ghost use Rattle.std.specs.List.{prefix_len};
ghost use Rattle.yaml_bytes.specs.Bytes.{is_blank, characters};
ghost use Rattle.yaml_bytes.specs.Plain.{ends_word};
ghost use Rattle.yaml_bytes.specs.Scanning.{behind_blanks, trim_blanks, word_len, word_front, word_rest, spaces_len};
ghost use Rattle.yaml_bytes.specs.Scanning.{behind_spaces, behind_dash, before_colon};
ghost use Rattle.yaml_bytes.specs.View.{option_slice};

use crate::bytes::{begins_break, begins_character, begins_gap, is_blank, is_flow_indicator};

// How many blanks come first.
fn blanks_len(text: &[u8]) -> usize
    ensures within { result ≤ length text.now }
    ensures value { result ≡ prefix_len is_blank text.now }
{
    text.iter().take_while(|b| is_blank(**b)).count()
}

/// A text without the blanks at its front.
pub fn behind_blanks(text: &[u8]) -> &[u8]
    ensures { result.now ≡ behind_blanks text.now }
{
    text.split_at(blanks_len(text)).1
}

/// A text without the blanks at its end.
pub fn trim_blanks(text: &[u8]) -> &[u8]
    ensures { result.now ≡ trim_blanks text.now }
{
    let mut rest = text;
    while let [before @ .., b] = rest {
        if !is_blank(*b) {
            break;
        }
        rest = before;
    }
    rest
}

// Whether a byte is a small letter or one of `^ _` and the grave accent. No word ends before these,
// and most bytes of words are among them.
fn is_inner(b: u8) -> bool
    ensures { result ≡ (nat_le 94 b && nat_le b 122) }
{
    b'^' <= b && b <= b'z'
}

// Whether a plain word ends before this text, where `before` is the byte in front of it.
fn ends_word(flow: bool, before: u8, text: &[u8]) -> bool
    ensures { result ≡ ends_word flow before text.now }
{
    match text {
        [] => true,
        [b, after @ ..] => {
            !is_inner(*b)
                && ((flow && is_flow_indicator(*b))
                    || (*b == b'#' && is_blank(before))
                    || (*b == b':' && begins_break(flow, after)))
        }
    }
}

// How many bytes a plain word has, the blanks at its end too.
fn word_len(flow: bool, text: &[u8]) -> usize
    ensures within { result ≤ length text.now }
    ensures value { result ≡ word_len flow 32 text.now }
{
    let mut len = 0;
    let mut before = b' ';
    let mut rest = text;
    while let [b, after @ ..] = rest {
        if ends_word(flow, before, rest) {
            break;
        }
        before = *b;
        rest = after;
        len += 1;
    }
    len
}

/// The plain word at the front, with the blanks at its end, and what follows it.
pub fn split_word(flow: bool, text: &[u8]) -> (&[u8], &[u8])
    ensures front { result.0.now ≡ word_front flow text.now }
    ensures rest { result.1.now ≡ word_rest flow text.now }
{
    text.split_at(word_len(flow, text))
}

/// The number of characters of a text in UTF-8: of its bytes other than 128 to 191, which continue a
/// character.
pub fn characters(text: &[u8]) -> usize
    ensures { result ≡ characters text.now }
{
    let mut count = 0;
    let mut rest = text;
    while let [b, after @ ..] = rest {
        if begins_character(*b) {
            count += 1;
        }
        rest = after;
    }
    count
}

/// The number of spaces at the front.
pub fn spaces_len(text: &[u8]) -> usize
    ensures within { result ≤ length text.now }
    ensures value { result ≡ spaces_len text.now }
{
    let mut len = 0;
    let mut rest = text;
    while let [b' ', after @ ..] = rest {
        rest = after;
        len += 1;
    }
    len
}

/// A text without the spaces at its front.
pub fn behind_spaces(text: &[u8]) -> &[u8]
    ensures { result.now ≡ behind_spaces text.now }
{
    let (_, rest) = text.split_at(spaces_len(text));
    rest
}

/// What comes after the `-` of an item, if the text is an item.
pub fn behind_dash(text: &[u8]) -> Option<&[u8]>
    ensures { option_slice (λ after. after) result ≡ behind_dash text.now }
{
    match text {
        [] => None,
        [b, after @ ..] => {
            if *b == b'-' && begins_gap(after) {
                Some(after)
            } else {
                None
            }
        }
    }
}

/// A text without its last bytes, as many as `after` has and one more. If `after` is what comes
/// after the colon of an entry, this is what comes before the colon.
pub fn before_colon<'a>(text: &'a [u8], after: &[u8]) -> &'a [u8]
    ensures { result.now ≡ before_colon text.now after.now }
{
    let (front, _) = text.split_at(text.len().saturating_sub(after.len() + 1));
    front
}
