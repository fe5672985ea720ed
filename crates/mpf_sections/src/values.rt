//! Values of an entry, by their places.

ghost use Rattle.std.specs.Prelude.{◌≡◌, ◌&&◌, nat_le, pos, negsuc};
ghost use Rattle.setting_values.specs.ValueOf.{within};
ghost use Rattle.mpf_sections.specs.Typed.{word_of, flag_of, natural_of, number_of, direction_of, limit_of, time_of};
ghost use Rattle.mpf_sections.specs.Typed.{word_in, number_in};
ghost use Rattle.mpf_sections.specs.TypedGame.{change_in};
ghost use Rattle.mpf_sections.specs.EntryReading.{value_at, IsTextAt, AreNamesAt, AreFewNamesAt, AreEventsAt};
ghost use Rattle.mpf_sections.specs.EntryReading.{ArePostsOf, ArePostsAt, AreStepsAt, AreMapsAt, AreKeyedOf, field_at};
ghost use Rattle.mpf_sections.specs.EntryReading.{IsFieldAt, IsAlways, IsHandledIn, IsEventIn, IsNameIn, IsNameOr};
ghost use Rattle.mpf_sections.specs.EntryReading.{pulse_of_text, power_of_text};

use crate::typed::{HandledAt, NameAt, as_handled};
use machine_settings::Direction;
use section_tables::rows::Entry;
use setting_values::values::{Fields, Handler, KeyedValues, Name, Plain, Step, Value};

// ---- values of settings

const DOWN: &[u8] = b"down";

/// The names at a place of an entry; none if there is no list of names.
pub fn names_at(entry: &Entry, at: usize) -> &[Name]
    ensures { AreNamesAt entry.now at result.now }
{
    match entry.value(at) {
        Some(Value::Names(names)) => names,
        _ => &[],
    }
}

/// The names at a place of an entry, 16 at most; none if there are more, or there is no list of
/// names.
pub fn few_names(entry: &Entry, at: usize) -> &[Name]
    ensures { AreFewNamesAt entry.now at result.now }
{
    let names = names_at(entry, at);
    if names.len() <= 16 { names } else { &[] }
}

/// The handled events at a place of an entry; none if there is no list of them.
pub fn handlers_at(entry: &Entry, at: usize) -> &[Handler]
    ensures { AreEventsAt entry.now at result.now }
{
    match entry.value(at) {
        Some(Value::Events(handlers)) => handlers,
        _ => &[],
    }
}

/// The posted events that a value is; none if it is no list of them.
pub fn posts(value: &Value) -> &[Name]
    ensures { ArePostsOf value.now result.now }
{
    match value {
        Value::Posts(posts) => posts,
        _ => &[],
    }
}

/// The posted events at a place of an entry.
pub fn posts_at(entry: &Entry, at: usize) -> &[Name]
    ensures { ArePostsAt entry.now at result.now }
{
    match entry.value(at) {
        Some(value) => posts(value),
        None => &[],
    }
}

/// The word at a place of an entry; the empty one if there is none.
pub fn word_at(entry: &Entry, at: usize) -> &'static [u8]
    ensures { result.now ≡ word_of (value_at entry.now at) }
{
    match entry.value(at) {
        Some(Value::One(Plain::Word(word))) => word,
        _ => b"",
    }
}

/// The flag at a place of an entry; false if there is none.
pub fn flag(entry: &Entry, at: usize) -> bool
    ensures { result ≡ flag_of (value_at entry.now at) }
{
    match entry.value(at) {
        Some(Value::One(Plain::Flag(flag))) => *flag,
        _ => false,
    }
}

/// The number at a place of an entry; 0 if there is none, or it is not of 32 bits.
pub fn natural(entry: &Entry, at: usize) -> u32
    ensures { result ≡ natural_of (value_at entry.now at) }
{
    match entry.value(at) {
        Some(Value::One(Plain::Number(number))) => u32::try_from(*number).unwrap_or(0),
        _ => 0,
    }
}

/// Whether a number is from -1,000,000,000 to 1,000,000,000.
fn is_limit(n: i64) -> bool
    ensures { result ≡ within (negsuc 999999999) (pos 1000000000) n }
{
    -1_000_000_000 <= n && n <= 1_000_000_000
}

/// The whole number at a place of an entry; 0 if there is none.
pub fn integer_at(entry: &Entry, at: usize) -> i64
    ensures { result ≡ number_of (value_at entry.now at) }
{
    match entry.value(at) {
        Some(Value::One(Plain::Number(number))) => *number,
        _ => 0,
    }
}

/// The number at a place of an entry where there may be none.
pub fn limit(entry: &Entry, at: usize) -> Option<i64>
    ensures { result ≡ limit_of (value_at entry.now at) }
{
    match entry.value(at) {
        Some(Value::One(Plain::Number(number))) if is_limit(*number) => Some(*number),
        _ => None,
    }
}

/// The direction at a place of an entry; up if there is none.
pub fn direction(entry: &Entry, at: usize) -> Direction
    ensures { result ≡ direction_of (word_of (value_at entry.now at)) }
{
    if word_at(entry, at) == DOWN {
        return Direction::Down;
    }
    Direction::Up
}

/// The milliseconds at a place of an entry; 0 if there is no time.
pub fn milliseconds(entry: &Entry, at: usize) -> u32
    ensures { result ≡ time_of (value_at entry.now at) }
{
    match entry.value(at) {
        Some(Value::One(Plain::Time(ms))) => *ms,
        _ => 0,
    }
}

/// The steps at a place of an entry, 16 at most; none if there are no steps.
pub fn steps(entry: &Entry, at: usize) -> &[Step]
    ensures { AreStepsAt entry.now at result.now }
{
    match entry.value(at) {
        Some(Value::Steps(steps)) if steps.len() <= 16 => steps,
        _ => &[],
    }
}

/// The maps at a place of an entry; none if there is no list of them.
pub fn maps_at(entry: &Entry, at: usize) -> &[Fields]
    ensures { AreMapsAt entry.now at result.now }
{
    match entry.value(at) {
        Some(Value::Maps(maps)) => maps,
        _ => &[],
    }
}

/// The names that a value has, with what belongs to each; none if it is no map of names.
pub fn keyed_values(value: &Value) -> &[KeyedValues]
    ensures { AreKeyedOf value.now result.now }
{
    match value {
        Value::Keyed(keyed) => keyed,
        _ => &[],
    }
}

/// The text at a place of an entry; none if there is none.
pub fn text(entry: &Entry, at: usize) -> Option<&Plain>
    ensures { IsTextAt entry.now at result }
{
    match entry.value(at) {
        Some(Value::One(text)) => Some(text),
        _ => None,
    }
}

// ---- texts

// An event that is handled always.
fn always(name: NameAt<'_>) -> HandledAt<'_>
    ensures { IsAlways name.entry result }
{
    HandledAt {
        line: name.line,
        name: name.text,
        condition: None,
    }
}

/// The handled event that a text is. A name is one that is handled always; what is neither has line
/// 0 and no name.
pub fn handled_event(event: &Plain) -> HandledAt<'_>
    ensures { IsHandledIn event.now result }
{
    match event {
        Plain::Event(handler) => as_handled(handler),
        Plain::Name(name) => always(NameAt {
            line: name.line,
            text: &name.text,
        }),
        Plain::DefaultName(text) => always(NameAt { line: 0, text }),
        _ => always(NameAt { line: 0, text: b"" }),
    }
}

/// The handled event that a text is, if it is written as one.
pub fn event_in(text: Option<&Plain>) -> Option<HandledAt<'_>>
    ensures { IsEventIn text.entry result }
{
    match text {
        Some(Plain::Event(handler)) => Some(as_handled(handler)),
        _ => None,
    }
}

/// The name that a text is, where it is written; none if it is no name.
pub fn name_in(text: Option<&Plain>) -> Option<NameAt<'_>>
    ensures { IsNameIn text.entry result }
{
    match text {
        Some(Plain::Name(name)) => Some(NameAt {
            line: name.line,
            text: &name.text,
        }),
        Some(Plain::DefaultName(text)) => Some(NameAt { line: 0, text }),
        _ => None,
    }
}

/// The name that a text is, where it is written; if it is no name, another one, at line 0.
pub fn name_or<'a>(text: Option<&'a Plain>, otherwise: &'static [u8]) -> NameAt<'a>
    ensures { IsNameOr otherwise.now text.entry result }
{
    match name_in(text) {
        Some(written) => written,
        None => NameAt {
            line: 0,
            text: otherwise,
        },
    }
}

// Whether a pulse may last so many milliseconds.
fn is_pulse(ms: u32) -> bool
    ensures { result ≡ (nat_le 1 ms && nat_le ms 5000) }
{
    1 <= ms && ms <= 5_000
}

/// The milliseconds of a pulse, from 1 to 5,000; none if none are written.
pub fn pulse(text: Option<&Plain>) -> Option<u32>
    ensures { result ≡ pulse_of_text text.entry }
{
    match text {
        Some(Plain::Time(ms)) if is_pulse(*ms) => Some(*ms),
        _ => None,
    }
}

/// A power in thousandths, up to 1,000; none if none is written.
pub fn power_in(text: Option<&Plain>) -> Option<u16>
    ensures { result ≡ power_of_text text.entry }
{
    match text {
        Some(Plain::Power(power)) if *power <= 1_000 => Some(*power),
        _ => None,
    }
}

// ---- values of fields

/// The text at a place of a map; none if there is none.
pub fn field(values: &[Plain], at: usize) -> Option<&Plain>
    ensures { IsFieldAt values.now at result }
{
    values.get(at)
}

/// The word at a place of a map; the empty one if there is none.
pub fn word_field(values: &[Plain], at: usize) -> &'static [u8]
    ensures { result.now ≡ word_in (field_at values.now at) }
{
    match values.get(at) {
        Some(Plain::Word(word)) => word,
        _ => b"",
    }
}

/// The number at a place of a map, from -1,000,000,000 to 1,000,000,000; 0 if there is none.
pub fn change(values: &[Plain], at: usize) -> i64
    ensures { result ≡ change_in (field_at values.now at) }
{
    match values.get(at) {
        Some(Plain::Number(number)) if is_limit(*number) => *number,
        _ => 0,
    }
}

/// The number at a place of a map; 0 if there is none.
pub fn number_field(values: &[Plain], at: usize) -> i64
    ensures { result ≡ number_in (field_at values.now at) }
{
    match values.get(at) {
        Some(Plain::Number(number)) => *number,
        _ => 0,
    }
}
