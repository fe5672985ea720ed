//! The texts of a bundle.

ghost use Rattle.std.specs.Prelude.{◌≡◌, ◌≤◌, ◌+◌, ◌^◌, false, length, IfOk};
ghost use Rattle.yaml_subset.specs.View.{option_slice};
ghost use Rattle.mpf_config.specs.BundleText.{mode_text_name, name_in, piece_len, line_ends};
ghost use Rattle.mpf_config.specs.Reading.{text_at, texts_at};
ghost use Rattle.mpf_config.specs.Gives.{GivesText, GivesTexts, GivesBytes, machine_text_in};

use crate::fault::{BundleFaultKind, ConfigFault};
use crate::spot::{NONE, line_of};
use memchr::{memchr_iter, memmem};
use std::alloc::{AllocError, Global};
use yaml_bytes::{behind_blanks, is_blank, split_line, trim_blanks};

/// The name of the machine text.
pub const MACHINE_NAME: &[u8] = b"config/config.yaml";

/// The name of the text of a mode: `modes/NAME/config/NAME.yaml`.
///
/// # Errors
///
/// `AllocError`: memory ran out.
pub fn mode_text_name(alloc: Global, mode: &[u8]) -> Result<Vec<u8>, AllocError>
    ensures { IfOk result (λ name. name.items ≡ mode_text_name mode.now) }
{
    let mut name = Vec::from_slice(alloc, b"modes/")?;
    name.extend_from_slice(mode)?;
    name.extend_from_slice(b"/config/")?;
    name.extend_from_slice(mode)?;
    name.extend_from_slice(b".yaml")?;
    Ok(name)
}

/// A text, and the name in the line `@ NAME` in front of it.
#[derive(Clone, Copy)]
pub struct NamedText<'a> {
    pub name: &'a [u8],
    pub text: &'a [u8],
}

/// The name in a line `@ NAME`; or nothing if the line is none.
fn name_in(line: &[u8]) -> Option<&[u8]>
    ensures { option_slice (λ name. name) result ≡ name_in line.now }
{
    match line {
        [b'@', b, rest @ ..] if is_blank(*b) => Some(trim_blanks(behind_blanks(rest))),
        _ => None,
    }
}

/// How many bytes stand in front of the next line that begins with `@`, apart from the first
/// line.
fn piece_len(bundle: &[u8]) -> usize
    ensures within { result ≤ length bundle.now }
    ensures value { result ≡ piece_len false bundle.now }
{
    match memmem::find(bundle, b"\n@") {
        None => bundle.len(),
        Some(end) => end + 1,
    }
}

/// How many lines end in the front of a bundle.
fn line_ends(front: &[u8]) -> usize
    ensures value { result ≡ line_ends front.now }
    ensures few { result ≤ length front.now }
{
    memchr_iter(b'\n', front).count()
}

/// The text of a piece of the bundle, which comes after this front of it. The fault is Bundle at the
/// line where the piece begins. Lines are counted only then.
#[tactic(auto, unfolding(crate::specs::Reading::text_at))]
fn text_of<'a>(alloc: Global, front: &[u8], piece: &'a [u8]) -> Result<NamedText<'a>, ConfigFault>
    requires { length front.now ≤ 2 ^ 23 }
    ensures { GivesText result (text_at (1 + line_ends front.now, piece.now)) }
{
    let (first, after) = split_line(piece);
    let Some(name) = name_in(first) else {
        let line = 1 + line_ends(front) as u32;
        let fault = line_of(NONE, line).fault(alloc, BundleFaultKind::Bundle)?;
        return Err(ConfigFault::Bundle(fault));
    };
    let text = match after {
        None => &[],
        Some(after) => after,
    };
    Ok(NamedText { name, text })
}

/// The texts of a bundle, in its order. The fault is Bundle at the first line that has to be `@ NAME`
/// and is not: the first one, or one that begins with `@`. An empty bundle has no texts.
pub fn texts(alloc: Global, bundle: &[u8]) -> Result<Vec<NamedText<'_>>, ConfigFault>
    requires { length bundle.now ≤ 2 ^ 23 }
    ensures { GivesTexts result (texts_at bundle.now) }
{
    let mut texts = Vec::new(alloc);
    let mut at = 0;
    while at < bundle.len() {
        let (front, rest) = bundle.split_at(at);
        let (piece, _) = rest.split_at(piece_len(rest));
        let text = text_of(alloc, front, piece)?;
        texts.push(text)?;
        at += piece.len();
    }
    Ok(texts)
}

/// The machine text, wherever it is among the texts. The fault is Bundle if it is not there.
pub fn machine_text<'a>(alloc: Global, texts: &[NamedText<'a>]) -> Result<&'a [u8], ConfigFault>
    ensures { GivesBytes result (machine_text_in texts.now) }
{
    for text in texts {
        if text.name == MACHINE_NAME {
            return Ok(text.text);
        }
    }
    let fault = line_of(NONE, 1).fault(alloc, BundleFaultKind::Bundle)?;
    Err(ConfigFault::Bundle(fault))
}
