//! Booleans.

ghost use Rattle.std.specs.Prelude.{◌≡◌, Bool, ◌||◌, IfOk, IfErr, codes};
ghost use Rattle.std.specs.Str.{bytes_eq};
ghost use Rattle.mpf_values.specs.Booleans.{IsBoolean};
ghost use Rattle.mpf_values.specs.Reading.{boolean_at, spells};
ghost use Rattle.mpf_values.specs.View.{Gives};

use crate::fault::BadValue;

// Whether a text is one of the three spellings of a word.
fn is_spelled(text: &[u8], small: &[u8], first: &[u8], all: &[u8]) -> bool
    ensures { result ≡ (bytes_eq text.now small.now || (bytes_eq text.now first.now || bytes_eq text.now all.now)) }
{
    text == small || text == first || text == all
}

fn is_true(text: &[u8]) -> bool
    ensures { result ≡ (spells (codes "yes") text.now
        || (spells (codes "true") text.now || spells (codes "on") text.now)) }
{
    is_spelled(text, b"yes", b"Yes", b"YES")
        || is_spelled(text, b"true", b"True", b"TRUE")
        || is_spelled(text, b"on", b"On", b"ON")
}

fn is_false(text: &[u8]) -> bool
    ensures { result ≡ (spells (codes "no") text.now
        || (spells (codes "false") text.now || spells (codes "off") text.now)) }
{
    is_spelled(text, b"no", b"No", b"NO")
        || is_spelled(text, b"false", b"False", b"FALSE")
        || is_spelled(text, b"off", b"Off", b"OFF")
}

#[tactic(auto, unfolding(crate::specs::Reading::boolean_at))]
fn truth(text: &[u8]) -> Result<bool, BadValue>
    ensures { Gives (λ b. b) result (boolean_at text.now) }
{
    if is_true(text) {
        return Ok(true);
    }
    if is_false(text) {
        return Ok(false);
    }
    Err(BadValue)
}

/// A boolean: `yes`, `true` or `on`, and `no`, `false` or `off`. Each word has three spellings, as
/// `yes`, `Yes` and `YES`. Any other text is `BadValue`: `yEs`, `1`, the empty one, and one with a
/// blank in it.
pub fn boolean(text: &[u8]) -> Result<bool, BadValue>
    // The result is the value of the text.
    ensures found { IfOk result (λ b. IsBoolean text.now b) }

    // The text has no other value.
    ensures only { IfOk result (λ b. (c : Bool) → IsBoolean text.now c → c ≡ b) }

    // A text that is refused has no value.
    ensures refused { IfErr result (λ _. (b : Bool) → IsBoolean text.now b → ⊥) }

    // The result is what reading the text gives.
    ensures exact { Gives (λ b. b) result (boolean_at text.now) }
{
    truth(text)
}
