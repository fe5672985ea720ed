//! Values that are one text.

ghost use Rattle.std.specs.Prelude.{◌≡◌, map, IfOk, Some, None, if◌then◌else◌};
ghost use Rattle.yaml_subset.specs.View.{option_slice};
ghost use Rattle.mpf_values.specs.Reading.{is_name};
ghost use Rattle.mpf_values.specs.View.{event_view};
ghost use Rattle.setting_values.specs.Values.{written_at, handled_at};
ghost use Rattle.setting_values.specs.ValueOf.{within};
ghost use Rattle.setting_values.specs.Reading.{is_one_of};
ghost use Rattle.setting_values.specs.View.{name_view, handler_view};
ghost use Rattle.setting_values.specs.ValueAnswers.{GivesPlain, name_said, event_said, read_plain};
ghost use Rattle.setting_values.specs.Gives.{IsPlainSaid, scalar_said};

use crate::kinds::Scalar;
use crate::values::{Guard, Handler, Name, NameText, Plain};
use config_faults::{BundleFaultKind, ConfigFault, Spot};
use mpf_values::{Event, boolean, event, integer, name, power, time};
use std::alloc::{AllocError, Global};
use yaml_subset::tree::Tree;

/// Whether a text is a name.
#[tactic(auto, unfolding(mpf_values::specs::Reading::name_at))]
pub fn is_name(text: &[u8]) -> bool
    ensures { result ≡ is_name text.now }
{
    name(text).is_ok()
}

/// A name that is written at a line.
pub fn name_of(alloc: Global, line: u32, text: &[u8]) -> Result<Name, AllocError>
    ensures { IfOk result (λ name. name_view name ≡ written_at line text.now) }
{
    let text = NameText::from_slice(alloc, text)?;
    Ok(Name { line, text })
}

/// A handled event that is written at a line.
pub fn handler_of(alloc: Global, line: u32, event: Event<'_>) -> Result<Handler, AllocError>
    ensures { IfOk result (λ handler. handler_view handler ≡ handled_at line (event_view event.entry)) }
{
    let name = NameText::from_slice(alloc, event.name)?;
    let condition = match event.condition {
        None => None,
        Some(condition) => {
            let variable = NameText::from_slice(alloc, condition.variable)?;
            let guard = Guard {
                variable,
                comparison: condition.comparison,
                number: condition.number,
            };
            Some(Box::new(alloc, guard)?)
        }
    };
    Ok(Handler {
        line,
        name,
        condition,
    })
}

fn is_within(least: i64, greatest: i64, n: i64) -> bool
    ensures { result ≡ within least greatest n }
{
    least <= n && n <= greatest
}

/// The word of a list that a text is.
#[tactic(auto, unfolding(crate::specs::Reading::is_one_of))]
pub fn word_in(words: &'static [&'static [u8]], text: &[u8]) -> Option<&'static [u8]>
    ensures { option_slice (λ w. w) result
        ≡ (if is_one_of (map (λ w. w.now) words.now) text.now then Some text.now else None) }
{
    for word in words {
        if *word == text {
            return Some(*word);
        }
    }
    None
}

// The name that a text at a line says; or nothing if it says none.
fn plain_name(alloc: Global, line: u32, text: &[u8]) -> Result<Option<Plain>, AllocError>
    ensures { IfOk result (λ value. IsPlainSaid value (name_said line text.now)) }
{
    if !is_name(text) {
        return Ok(None);
    }
    let name = name_of(alloc, line, text)?;
    Ok(Some(Plain::Name(Box::new(alloc, name)?)))
}

// The handled event that a text at a line says; or nothing if it says none.
fn plain_event(alloc: Global, line: u32, text: &[u8]) -> Result<Option<Plain>, AllocError>
    ensures { IfOk result (λ value. IsPlainSaid value (event_said line text.now)) }
{
    let Ok(event) = event(text) else {
        return Ok(None);
    };
    let handler = handler_of(alloc, line, event)?;
    Ok(Some(Plain::Event(Box::new(alloc, handler)?)))
}

/// What a text at a line says; or nothing if it does not say what it is to say.
#[tactic(auto, unfolding(crate::specs::Reading::scalar_of))]
pub fn scalar(
    alloc: Global,
    kind: Scalar,
    line: u32,
    text: &[u8],
) -> Result<Option<Plain>, AllocError>
    ensures { IfOk result (λ value. IsPlainSaid value (scalar_said kind line text.now)) }
{
    match kind {
        Scalar::Flag => match boolean(text) {
            Ok(b) => Ok(Some(Plain::Flag(b))),
            Err(_) => Ok(None),
        },
        Scalar::Number(least, greatest) => match integer(text) {
            Ok(n) if is_within(least, greatest, n) => Ok(Some(Plain::Number(n))),
            _ => Ok(None),
        },
        Scalar::Time(least, greatest) => match time(text) {
            Ok(ms) if least <= ms && ms <= greatest => Ok(Some(Plain::Time(ms))),
            _ => Ok(None),
        },
        Scalar::Power => match power(text) {
            Ok(n) => Ok(Some(Plain::Power(n))),
            Err(_) => Ok(None),
        },
        Scalar::Word(words) => match word_in(words, text) {
            Some(word) => Ok(Some(Plain::Word(word))),
            None => Ok(None),
        },
        Scalar::Name => plain_name(alloc, line, text),
        Scalar::Event => plain_event(alloc, line, text),
    }
}

/// What a node says that is a text. The fault is BadValue at the spot.
#[tactic(auto, unfolding(crate::specs::Reading::plain_at))]
pub fn plain(alloc: Global, spot: Spot<'_>, kind: Scalar, tree: &Tree) -> Result<Plain, ConfigFault>
    ensures { GivesPlain result (read_plain spot.entry kind tree.now) }
{
    let Some(text) = tree.as_scalar() else {
        return Err(ConfigFault::Bundle(spot.fault(alloc, BundleFaultKind::BadValue)?));
    };
    let Some(value) = scalar(alloc, kind, tree.line(), text)? else {
        return Err(ConfigFault::Bundle(spot.fault(alloc, BundleFaultKind::BadValue)?));
    };
    Ok(value)
}
