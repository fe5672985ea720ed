//! The reader of a certificate's text.

ghost use Rattle.std.specs.Prelude.{◌≡◌, ◌<◌, ◌≤◌, ◌+◌, ◌==◌, ◌&&◌, ◌^◌, not, [], ◌∷◌, IfOk, IfSome, MatchOption};
ghost use Rattle.std.specs.Prelude.{length, nat_lt, position, codes};
ghost use Rattle.std.specs.List.{list_all};
ghost use Rattle.config_checker.specs.CertificateOf.{is_in_word as in_word, is_plain, number_in, parts, lines};
ghost use Rattle.config_checker.specs.CertificateOf.{certificate_words, has_switches as has_switches_of, bound_in};
ghost use Rattle.config_checker.specs.CertificateOf.{numbered_in, front as front_of, first_event as first_event_of};
ghost use Rattle.config_checker.specs.CertificateOf.{end_of_lines, certificate_at};
ghost use Rattle.config_checker.specs.CertificateRead.{GivesCertificate, ReadsHeading, ReadsBound, States};
ghost use Rattle.config_checker.specs.CertificateRead.{HasNoLeadingLine, HasLeadingLine, AreLeadingLines};
ghost use Rattle.config_checker.specs.CertificateRead.{stated_switches};
ghost use Rattle.config_checker.specs.declared.certificate_reader.ReadFault.TheVariants.{NoMemory};

use std::alloc::{AllocError, Global};
use yaml_bytes::{is_blank, number};

const VERSION_1: &[u8] = b"pinball-certificate 1";

const VERSION_2: &[u8] = b"pinball-certificate 2";

const BOUND: &[u8] = b"bound";

const SWITCH: &[u8] = b"switch";

const EVENT: &[u8] = b"event";

/// The number of the first line after the bound.
const BODY: usize = 3;

/// A certificate, as its text states it.
#[derive(Drop)]
pub(crate) struct CertificateLines<'a> {
    pub(crate) bound: u32,
    /// The switches with their costs; none in version 1.
    pub(crate) switches: Option<Vec<CertificateLine<'a>>>,
    /// The events with their weights.
    pub(crate) events: Vec<CertificateLine<'a>>,
}

/// What a line `WORD NAME NUMBER` states.
#[derive(Clone, Copy)]
pub(crate) struct CertificateLine<'a> {
    pub(crate) name: &'a [u8],
    pub(crate) number: u32,
}

/// Why there is no certificate.
#[derive(Clone, Copy)]
pub(crate) enum ReadFault {
    /// Memory ran out.
    NoMemory,
    /// The first line that is not as it has to be, counted from 1.
    Line(usize),
}

impl From<AllocError> for ReadFault {
    ghost from_gives = { λ _ e. e ≡ NoMemory };

    fn from(_e: AllocError) -> ReadFault {
        ReadFault::NoMemory
    }
}

/// The certificate that a text is, of version 1 or 2; or the number of its first bad line.
pub(crate) fn read_certificate<'a>(
    alloc: Global,
    text: &'a [u8],
) -> Result<CertificateLines<'a>, ReadFault>
    ensures { GivesCertificate result (certificate_at text.now) }
{
    let (lists_switches, rest) = after_heading(text).ok_or(ReadFault::Line(1))?;
    let (bound, rest) = next_bound(rest).ok_or(ReadFault::Line(2))?;
    if !lists_switches {
        return read_events(alloc, bound, None, rest);
    }
    let (switches, rest) = front(alloc, rest, SWITCH)?;
    read_events(alloc, bound, Some(switches), rest)
}

/// The certificate with this bound, these switches and the events of the text, if the text has
/// nothing else.
fn read_events<'a>(
    alloc: Global,
    bound: u32,
    switches: Option<Vec<CertificateLine<'a>>>,
    text: &'a [u8],
) -> Result<CertificateLines<'a>, ReadFault>
    requires { IfSome switches (λ v. length v.items + length text.now < 2 ^ 63) }
    ensures { GivesCertificate result (end_of_lines bound (stated_switches switches.entry)
        (front_of (codes "event") (lines text.now))) }
{
    let (events, rest) = front(alloc, text, EVENT)?;
    if !rest.is_empty() {
        return Err(ReadFault::Line(first_event(&switches) + events.len()));
    }
    Ok(CertificateLines {
        bound,
        switches,
        events,
    })
}

/// The number of the line where the events begin.
fn first_event(switches: &Option<Vec<CertificateLine<'_>>>) -> usize
    ensures { result ≡ first_event_of (stated_switches switches.now) }
{
    match switches {
        None => BODY,
        Some(switches) => BODY + switches.len(),
    }
}

/// The lines `WORD NAME NUMBER` with this word at the front of a text, and the text after them.
fn front<'a>(
    alloc: Global,
    text: &'a [u8],
    word: &[u8],
) -> Result<(Vec<CertificateLine<'a>>, &'a [u8]), AllocError>
    ensures lines { IfOk result (AreLeadingLines word.now text.now) }
    ensures shorter { IfOk result (λ x. length x.0.items + length x.1.now ≤ length text.now) }
{
    let mut front_lines = Vec::new(alloc);
    let mut rest = text;
    while let Some((line, after)) = next_line(rest, word) {
        front_lines.push(line)?;
        rest = after;
    }
    Ok((front_lines, rest))
}

/// Whether a certificate with this first line states switches, and the text after that line.
fn after_heading(text: &[u8]) -> Option<(bool, &[u8])>
    ensures { ReadsHeading text.now result }
{
    let (line, rest) = first_line(text)?;
    let lists_switches = has_switches(line)?;
    Some((lists_switches, rest))
}

/// Whether a certificate with this first line states switches; none if no certificate begins so.
fn has_switches(line: &[u8]) -> Option<bool>
    ensures { result ≡ has_switches_of line.now }
{
    if line == VERSION_1 {
        Some(false)
    } else if line == VERSION_2 {
        Some(true)
    } else {
        None
    }
}

/// The bound that the first line states, and the text after that line.
fn next_bound(text: &[u8]) -> Option<(u32, &[u8])>
    ensures { ReadsBound text.now result }
{
    let (line, rest) = first_line(text)?;
    let bound = read_bound(line)?;
    Some((bound, rest))
}

/// The first line, if it is `WORD NAME NUMBER` with this word, and the text after it.
fn next_line<'a>(text: &'a [u8], word: &[u8]) -> Option<(CertificateLine<'a>, &'a [u8])>
    ensures line { MatchOption result (HasNoLeadingLine word.now text.now) (HasLeadingLine word.now text.now) }
    ensures shorter { IfSome result (λ x. length x.1.now < length text.now) }
{
    let (line, rest) = first_line(text)?;
    let line = read_line(line, word)?;
    Some((line, rest))
}

/// The bound that a line states: `bound N`.
fn read_bound(line: &[u8]) -> Option<u32>
    ensures { result ≡ bound_in line.now }
{
    let (word, number) = first_word(line)?;
    if word == BOUND {
        read_number(number)
    } else {
        None
    }
}

/// The number that a line states for a name by this word: `WORD NAME NUMBER`.
fn read_line<'a>(line: &'a [u8], word: &[u8]) -> Option<CertificateLine<'a>>
    ensures { States result (numbered_in word.now line.now) }
{
    let (first, rest) = first_word(line)?;
    let (name, number) = first_word(rest)?;
    if first != word || !is_name(name) {
        return None;
    }
    let number = read_number(number)?;
    Some(CertificateLine { name, number })
}

/// The first line of a text and what is after its line end, if it has one.
fn first_line(text: &[u8]) -> Option<(&[u8], &[u8])>
    ensures lines { MatchOption result (lines text.now ≡ text.now ∷ [])
        (λ x. lines text.now ≡ x.0.now ∷ lines x.1.now) }
    ensures shorter { IfSome result (λ x. length x.1.now < length text.now) }
{
    cut(text, b'\n')
}

/// The first word of a line and what is after its blank, if one follows.
fn first_word(line: &[u8]) -> Option<(&[u8], &[u8])>
    ensures { MatchOption result (certificate_words line.now ≡ line.now ∷ [])
        (λ x. certificate_words line.now ≡ x.0.now ∷ certificate_words x.1.now) }
{
    cut(line, b' ')
}

/// What is before the first of these bytes and what is after it, if there is one.
fn cut(text: &[u8], end: u8) -> Option<(&[u8], &[u8])>
    ensures parts { MatchOption result (parts end text.now ≡ text.now ∷ [])
        (λ x. parts end text.now ≡ x.0.now ∷ parts end x.1.now) }
    ensures shorter { IfSome result (λ x. length x.1.now < length text.now) }
{
    let place = place_of(text, end)?;
    Some((&text[..place], &text[place + 1..]))
}

/// Where the first of these bytes is.
fn place_of(text: &[u8], byte: u8) -> Option<usize>
    ensures { result ≡ position (λ b. b == byte) text.now }
{
    text.iter().position(|b| *b == byte)
}

/// Whether a word may stand for a name.
fn is_name(word: &[u8]) -> bool
    ensures { result ≡ (nat_lt 0 (length word.now) && list_all in_word word.now) }
{
    !word.is_empty() && has_no_blank(word)
}

/// Whether a word has neither a blank nor a line end.
fn has_no_blank(word: &[u8]) -> bool
    ensures { result ≡ list_all in_word word.now }
{
    word.iter().all(|b| is_in_word(*b))
}

fn is_in_word(b: u8) -> bool
    ensures { result ≡ in_word b }
{
    !(is_blank(b) || b == b'\n')
}

/// The number that a word says: digits, below 2^32, with no 0 before another digit.
fn read_number(word: &[u8]) -> Option<u32>
    ensures { result ≡ number_in word.now }
{
    if has_leading_zero(word) {
        return None;
    }
    u32::try_from(number(word)?).ok()
}

/// Whether a 0 is before another byte.
fn has_leading_zero(word: &[u8]) -> bool
    ensures { result ≡ not (is_plain word.now) }
{
    matches!(word, [b'0', _, ..])
}
