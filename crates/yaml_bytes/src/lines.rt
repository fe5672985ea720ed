//! The lines of a text.

ghost use Rattle.std.specs.Prelude.{◌≡◌, ◌∷◌, ◌<◌, ◌≤◌, length, IfSome};
ghost use Rattle.std.specs.List.{position_or_len};
ghost use Rattle.std.specs.Str.Lines.{strip_carriage_return};
ghost use Rattle.yaml_bytes.specs.Lines.{is_lf, cut_line, lines_of, lines_after};
ghost use Rattle.yaml_bytes.specs.View.{option_slice};

use memchr::memchr;

// How many bytes come before the first LF.
fn line_len(text: &[u8]) -> usize
    ensures within { result ≤ length text.now }
    ensures value { result ≡ position_or_len is_lf text.now }
{
    memchr(b'\n', text).unwrap_or(text.len())
}

// A line without the CR at its end.
fn without_cr(line: &[u8]) -> &[u8]
    ensures { result.now ≡ strip_carriage_return line.now }
{
    match line {
        [front @ .., b'\r'] => front,
        _ => line,
    }
}

/// The first line of a text, and what comes after it. LF ends a line, and a CR directly before that
/// LF is no part of the line. If no LF comes, the line is the whole text, also with a CR at its
/// end, and nothing comes after it.
pub fn split_line(text: &[u8]) -> (&[u8], Option<&[u8]>)
    ensures first { result.0.now ≡ (cut_line text.now).0 }
    ensures after { option_slice (λ after. after) result.1 ≡ (cut_line text.now).1 }
    ensures lines { lines_of text.now ≡ result.0.now ∷ lines_after (option_slice (λ after. after) result.1) }
    ensures shorter { IfSome result.1 (λ after. length after.now < length text.now) }
{
    let (line, end) = text.split_at(line_len(text));
    match end {
        [] => (line, None),
        [_, after @ ..] => (without_cr(line), Some(after)),
    }
}
