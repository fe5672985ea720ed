//! Integers.

ghost use Rattle.std.specs.Prelude.{◌≡◌, ℤ, IfOk, IfErr};
ghost use Rattle.mpf_values.specs.Integers.{IsInteger};
ghost use Rattle.mpf_values.specs.Reading.{magnitude_at, integer_at};
ghost use Rattle.mpf_values.specs.View.{Gives};

use crate::digits::whole_number;
use crate::fault::BadValue;

/// The greatest integer that a setting may have; the least is its negative.
const MAX_INTEGER: u64 = 1_000_000_000;

// The number that digits write, up to the greatest integer.
#[tactic(auto, unfolding(crate::specs::Reading::magnitude_at))]
fn magnitude(digits: &[u8]) -> Result<u32, BadValue>
    ensures { Gives (λ n. n) result (magnitude_at digits.now) }
{
    let n = whole_number(digits)?;
    if n > MAX_INTEGER {
        return Err(BadValue);
    }
    Ok(n as u32)
}

/// The integer that a text is, as [`integer`] gives it.
#[tactic(auto, unfolding(crate::specs::Reading::integer_at))]
pub fn signed(text: &[u8]) -> Result<i64, BadValue>
    ensures { Gives (λ n. n) result (integer_at text.now) }
{
    match text {
        [b'-', digits @ ..] => Ok(-i64::from(magnitude(digits)?)),
        _ => Ok(i64::from(magnitude(text)?)),
    }
}

/// An integer from -1,000,000,000 to 1,000,000,000: an optional `-` and one or more digits, zeros in
/// front among them. Any other text is `BadValue`: `1000000001`, `+1`, `1.0`, the empty one,
/// and one with a blank in it.
pub fn integer(text: &[u8]) -> Result<i64, BadValue>
    // The result is the value of the text.
    ensures found { IfOk result (λ n. IsInteger text.now n) }

    // The text has no other value.
    ensures only { IfOk result (λ n. (m : ℤ) → IsInteger text.now m → m ≡ n) }

    // A text that is refused has no value.
    ensures refused { IfErr result (λ _. (n : ℤ) → IsInteger text.now n → ⊥) }

    // The result is what reading the text gives.
    ensures exact { Gives (λ n. n) result (integer_at text.now) }
{
    signed(text)
}
