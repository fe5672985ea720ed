//! Handled events.

ghost use Rattle.std.specs.Prelude.{◌≡◌, IfOk, IfErr};
ghost use Rattle.mpf_values.specs.Events.{Event as Handled, IsEvent};
ghost use Rattle.mpf_values.specs.Reading.{behind_word, variable_at, operator_at, comparison_at, last_integer_at};
ghost use Rattle.mpf_values.specs.Reading.{condition_at, event_at};
ghost use Rattle.mpf_values.specs.View.{Gives, condition_view, event_view};
ghost use Rattle.yaml_bytes.specs.View.{rest_view};
ghost use Rattle.mpf_values.specs.ScalarViews.{slices_view, compared_view};

use crate::bytes::{split_name, split_operator, split_value};
use crate::fault::BadValue;
use crate::handled::{Comparison, Event, EventCondition};
use crate::integers::signed;
use crate::names::name;
use yaml_bytes::behind_blanks;

const OPENING: &[u8] = b"{";

const CLOSING: &[u8] = b"}";

const CURRENT_PLAYER: &[u8] = b"current_player.";

// What comes after a word that a text begins with.
fn behind_word<'a>(word: &[u8], text: &'a [u8]) -> Result<&'a [u8], BadValue>
    ensures { Gives rest_view result (behind_word word.now text.now) }
{
    match text.strip_prefix(word) {
        Some(rest) => Ok(rest),
        None => Err(BadValue),
    }
}

// The variable of a condition, and what comes after it and the blanks that follow it.
#[tactic(auto, unfolding(crate::specs::Reading::variable_at))]
fn variable(text: &[u8]) -> Result<(&[u8], &[u8]), BadValue>
    ensures { Gives slices_view result (variable_at text.now) }
{
    let inside = behind_word(OPENING, text)?;
    let (front, rest) = split_name(behind_word(CURRENT_PLAYER, behind_blanks(inside))?);
    Ok((name(front)?, behind_blanks(rest)))
}

// The comparison that an operator means.
#[tactic(auto, unfolding(crate::specs::Reading::operator_at))]
fn operator(text: &[u8]) -> Result<Comparison, BadValue>
    ensures { Gives (λ comparison. comparison) result (operator_at text.now) }
{
    match text {
        b"==" => Ok(Comparison::Equal),
        b"!=" => Ok(Comparison::NotEqual),
        b"<" => Ok(Comparison::Less),
        b"<=" => Ok(Comparison::LessOrEqual),
        b">" => Ok(Comparison::Greater),
        b">=" => Ok(Comparison::GreaterOrEqual),
        _ => Err(BadValue),
    }
}

// The comparison at the front, and what comes after it and the blanks that follow it.
#[tactic(auto, unfolding(crate::specs::Reading::comparison_at))]
fn comparison_in(text: &[u8]) -> Result<(Comparison, &[u8]), BadValue>
    ensures { Gives compared_view result (comparison_at text.now) }
{
    let (front, rest) = split_operator(text);
    Ok((operator(front)?, behind_blanks(rest)))
}

// The integer of a condition, with nothing after it but blanks and the closing brace.
#[tactic(auto, unfolding(crate::specs::Reading::last_integer_at))]
fn last_integer(text: &[u8]) -> Result<i64, BadValue>
    ensures { Gives (λ n. n) result (last_integer_at text.now) }
{
    let (front, rest) = split_value(text);
    let n = signed(front)?;
    if behind_blanks(rest) != CLOSING {
        return Err(BadValue);
    }
    Ok(n)
}

// The condition in braces that a text is.
#[tactic(auto, unfolding(crate::specs::Reading::condition_at))]
fn condition_of(text: &[u8]) -> Result<EventCondition<'_>, BadValue>
    ensures { Gives condition_view result (condition_at text.now) }
{
    let (variable, rest) = variable(text)?;
    let (comparison, rest) = comparison_in(rest)?;
    let number = last_integer(rest)?;
    Ok(EventCondition {
        variable,
        comparison,
        number,
    })
}

// The event that a text says is handled.
#[tactic(auto, unfolding(crate::specs::Reading::event_at))]
fn handled_event(text: &[u8]) -> Result<Event<'_>, BadValue>
    ensures { Gives event_view result (event_at text.now) }
{
    let (front, rest) = split_name(text);
    let name = name(front)?;
    if rest.is_empty() {
        return Ok(Event {
            name,
            condition: None,
        });
    }
    let condition = condition_of(rest)?;
    Ok(Event {
        name,
        condition: Some(condition),
    })
}

/// A handled event: a name, and directly after it a condition in braces or nothing, as in
/// `ball_started{current_player.ball >= 2}`: a variable of the current player, one of `==`, `!=`,
/// `<`, `<=`, `>` and `>=`, and an integer. The variable is a name, of as many bytes as can belong
/// to one. Blanks may stand directly inside the braces and around the operator. Any other text is
/// `BadValue`: one with a name that is empty or has more than 64 bytes, with an integer beyond the
/// range of [`integer`](crate::integer), with a blank in front of the `{`, or with anything after
/// the `}`.
pub fn event(text: &[u8]) -> Result<Event<'_>, BadValue>
    // The result is the value of the text.
    ensures found { IfOk result (λ event. IsEvent text.now (event_view event)) }

    // The text has no other value.
    ensures only { IfOk result (λ event. (e : Handled) → IsEvent text.now e → e ≡ event_view event) }

    // A text that is refused has no value.
    ensures refused { IfErr result (λ _. (e : Handled) → IsEvent text.now e → ⊥) }

    // The result is what reading the text gives.
    ensures exact { Gives event_view result (event_at text.now) }
{
    handled_event(text)
}
