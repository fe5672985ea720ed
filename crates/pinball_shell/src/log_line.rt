//! What the lines of a log say.

ghost use Rattle.std.specs.Prelude.{◌≡◌, ◌<◌, ◌≤◌, nat_lt, true, not, [], ◌∷◌, IfSome, MatchOption, length, take};
ghost use Rattle.std.specs.Prelude.{position};
ghost use Rattle.std.specs.List.{list_all, position_or_len};
ghost use Rattle.std.specs.Char.{is_ascii_digit};
ghost use Rattle.std.specs.Str.Lines.{lines};
ghost use Rattle.yaml_bytes.specs.Bytes.{is_blank as blank};
ghost use Rattle.yaml_bytes.specs.Numbers.{value_of_digits};
ghost use Rattle.pinball_shell.specs.LogText.{words, moment_in, level_in, wait as wait_at, change as change_at};
ghost use Rattle.pinball_shell.specs.LogText.{said_in, meaning};
ghost use Rattle.pinball_shell.specs.LogView.{Says, IsFront};

use yaml_bytes::{is_blank, number, split_line};

/// What a line of a log asks for.
#[derive(Clone, Copy)]
pub enum LogLine<'a> {
    /// The line is empty, or a comment.
    Nothing,
    /// Wait until this moment, in milliseconds.
    Wait(u64),
    /// From this moment on, the switch of this name has this raw level.
    Change(u64, &'a [u8], bool),
    /// The line is none of these.
    Unreadable,
}

/// The first line of a text that is not empty, and the text after it. A line ends with LF or CR LF;
/// the last one may lack its end.
pub fn first_line(text: &[u8]) -> (&[u8], &[u8])
    requires { 0 < length text.now }
    ensures first { lines text.now ≡ result.0.now ∷ lines result.1.now }
    ensures shorter { length result.1.now < length text.now }
{
    let (line, after) = split_line(text);
    match after {
        None => (line, &[]),
        Some(after) => (line, after),
    }
}

/// What a line says.
pub fn read_line(line: &[u8]) -> LogLine<'_>
    ensures { Says result (meaning line.now) }
{
    match read_usual(line) {
        Some(said) => said,
        None => read_any(line),
    }
}

/// What a line of the usual form says: a moment of at most 18 digits, one blank, a name, one blank
/// and a level. `None` for a line of any other form. Nearly all lines are usual, and `read_any` takes
/// more than twice as long: here the digits are read in the pass that finds their end, and the level
/// at the end of the line.
fn read_usual(line: &[u8]) -> Option<LogLine<'_>>
    ensures { IfSome result (λ s. Says s (meaning line.now)) }
{
    let [front @ .., blank, digit] = line else {
        return None;
    };
    let level = read_digit(*digit)?;
    let (at, name) = read_front(front)?;
    if is_blank(*blank) && !name.is_empty() && is_plain(name) {
        Some(LogLine::Change(at, name, level))
    } else {
        None
    }
}

/// The level that a digit says.
fn read_digit(digit: u8) -> Option<bool>
    ensures { result ≡ level_in (digit ∷ []) }
{
    match digit {
        b'0' => Some(false),
        b'1' => Some(true),
        _ => None,
    }
}

/// The moment that 1 to 18 digits at the front of a text say, and what follows the blank after them.
fn read_front(text: &[u8]) -> Option<(u64, &[u8])>
    ensures { IfSome result (λ x. IsFront text.now x.0 x.1.now) }
{
    let (len, moment) = first_digits(text);
    match text.split_at(len).1 {
        [blank, rest @ ..] if 0 < len && is_blank(*blank) => Some((moment, rest)),
        _ => None,
    }
}

/// How many digits a text begins with, 18 at most, and their number.
fn first_digits(text: &[u8]) -> (usize, u64)
    ensures few { result.0 ≤ 18 }
    ensures within { result.0 ≤ length text.now }
    ensures digits { list_all is_ascii_digit (take result.0 text.now) ≡ true }
    ensures number { result.1 ≡ value_of_digits (take result.0 text.now) }
{
    let most = text.len().min(18);
    let mut number = 0;
    for len in 0..most {
        let digit = text[len];
        if !digit.is_ascii_digit() {
            return (len, number);
        }
        number = number * 10 + u64::from(digit - b'0');
    }
    (most, number)
}

/// Whether all bytes of a text are above that of a space, so that none is a blank.
fn is_plain(text: &[u8]) -> bool
    ensures { result ≡ list_all (λ b. nat_lt 32 b) text.now }
{
    text.iter().all(|b| b' ' < *b)
}

/// What a line of any form says.
fn read_any(line: &[u8]) -> LogLine<'_>
    ensures { Says result (meaning line.now) }
{
    if line.is_empty() || line[0] == b'#' {
        LogLine::Nothing
    } else if is_blank(line[0]) || is_blank(line[line.len() - 1]) {
        LogLine::Unreadable
    } else {
        read_words(line)
    }
}

/// What the words of a line say: `MOMENT`, or `MOMENT SWITCH LEVEL`.
fn read_words(line: &[u8]) -> LogLine<'_>
    ensures { Says result (said_in (words line.now)) }
{
    let Some((moment, rest)) = first_word(line) else {
        return LogLine::Unreadable;
    };
    let Some((name, rest)) = first_word(rest) else {
        return wait(moment);
    };
    let Some((level, rest)) = first_word(rest) else {
        return LogLine::Unreadable;
    };
    match first_word(rest) {
        None => change(moment, name, level),
        Some(_) => LogLine::Unreadable,
    }
}

/// The first word of a text, and the text after it.
fn first_word(text: &[u8]) -> Option<(&[u8], &[u8])>
    ensures { MatchOption result (words text.now ≡ []) (λ x. words text.now ≡ x.0.now ∷ words x.1.now) }
{
    let start = word_start(text)?;
    let (_, word_on) = text.split_at(start);
    let (word, rest) = word_on.split_at(word_len(word_on));
    Some((word, rest))
}

/// Where the first word of a text begins.
fn word_start(text: &[u8]) -> Option<usize>
    ensures { result ≡ position (λ b. not (blank b)) text.now }
{
    text.iter().position(|b| !is_blank(*b))
}

/// How many bytes a text has before its first blank.
fn word_len(text: &[u8]) -> usize
    ensures { result ≡ position_or_len blank text.now }
{
    match first_blank(text) {
        None => text.len(),
        Some(end) => end,
    }
}

/// Where the first blank of a text is.
fn first_blank(text: &[u8]) -> Option<usize>
    ensures { result ≡ position blank text.now }
{
    text.iter().position(|b| is_blank(*b))
}

fn wait(moment: &[u8]) -> LogLine<'_>
    ensures { Says result (wait_at (moment_in moment.now)) }
{
    match read_moment(moment) {
        None => LogLine::Unreadable,
        Some(at) => LogLine::Wait(at),
    }
}

fn change<'a>(moment: &[u8], name: &'a [u8], level: &[u8]) -> LogLine<'a>
    ensures { Says result (change_at (moment_in moment.now) name.now (level_in level.now)) }
{
    match (read_moment(moment), read_level(level)) {
        (Some(at), Some(level)) => LogLine::Change(at, name, level),
        _ => LogLine::Unreadable,
    }
}

/// The level that a word says.
fn read_level(word: &[u8]) -> Option<bool>
    ensures { result ≡ level_in word.now }
{
    match word {
        [digit] => read_digit(*digit),
        _ => None,
    }
}

/// The moment that a word says: 1 to 20 digits, below 2^64. `number` takes several times as long as
/// `first_digits`, since it makes a `str` of its text first.
fn read_moment(word: &[u8]) -> Option<u64>
    ensures { result ≡ moment_in word.now }
{
    let (len, moment) = first_digits(word);
    if 0 < len && len == word.len() {
        Some(moment)
    } else if word.len() <= 20 {
        number(word)
    } else {
        None
    }
}
