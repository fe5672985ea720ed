//! The items of a list text.

ghost use Rattle.std.specs.Prelude.{◌≡◌, ◌+◌, ◌<◌, ◌≤◌, ◌^◌, length, map, IfOk, IfSome};
ghost use Rattle.mpf_values.specs.Bytes.{is_separator};
ghost use Rattle.mpf_values.specs.ListText.{open_after};
ghost use Rattle.mpf_values.specs.Lists.{item_at};
ghost use Rattle.mpf_values.specs.Reading.{behind, items_of, item_len};
ghost use Rattle.mpf_values.specs.View.{items_view};
ghost use Rattle.mpf_values.specs.ScalarViews.{next_items};

use crate::bytes::{behind_separators, is_separator};
use std::alloc::{AllocError, Global};

/// An item of a list, with the line where it is.
#[derive(Clone, Copy)]
pub struct Item<'a> {
    pub line: u32,
    pub text: &'a [u8],
}

// How many braces are open after a byte.
fn open_after(open_braces: usize, b: u8) -> usize
    requires { open_braces + 1 < 2 ^ 64 }
    ensures value { result ≡ open_after open_braces b }
    ensures grows { result ≤ open_braces + 1 }
{
    match b {
        b'{' => open_braces + 1,
        b'}' => open_braces.saturating_sub(1),
        _ => open_braces,
    }
}

// How many bytes the item has that a text begins with: it ends before a separator outside braces,
// or with the text.
fn item_len(text: &[u8]) -> usize
    ensures within { result ≤ length text.now }
    ensures value { result ≡ item_len 0 text.now }
{
    let mut len = 0;
    let mut open_braces = 0;
    let mut rest = text;
    while let [b, after @ ..] = rest {
        if open_braces == 0 && is_separator(*b) {
            break;
        }
        open_braces = open_after(open_braces, *b);
        rest = after;
        len += 1;
    }
    len
}

// The first item of a list text, and what comes after it.
fn next_item(text: &[u8]) -> Option<(&[u8], &[u8])>
    ensures items { items_of text.now ≡ next_items result }
    ensures shorter { IfSome result (λ found. length found.1.now < length text.now) }
{
    let rest = behind_separators(text);
    if rest.is_empty() {
        return None;
    }
    Some(rest.split_at(item_len(rest)))
}

/// The items of a list text, all at the line of the text.
pub fn text_items(alloc: Global, line: u32, text: &[u8]) -> Result<Vec<Item<'_>>, AllocError>
    ensures { IfOk result (λ items. items_view items.items ≡ map (item_at line) (items_of text.now)) }
{
    let mut items = Vec::new(alloc);
    let mut rest = text;
    while let Some((item, after)) = next_item(rest) {
        items.push(Item { line, text: item })?;
        rest = after;
    }
    Ok(items)
}
