//! Powers of coils.

ghost use Rattle.std.specs.Prelude.{◌≡◌, ℕ, IfOk, IfErr};
ghost use Rattle.mpf_values.specs.Powers.{IsPower};
ghost use Rattle.mpf_values.specs.Reading.{share_at, power_at};
ghost use Rattle.mpf_values.specs.View.{Gives};

use crate::decimals::{Decimal, split_decimal};
use crate::fault::BadValue;

/// Full power, in thousandths.
const FULL: u64 = 1000;

// The thousandths of full power that a number is, with what comes after it: nothing, or a per
// cent sign if the number has at most one decimal.
#[tactic(auto, unfolding(crate::specs::Reading::share_at))]
fn share(number: Decimal, rest: &[u8]) -> Result<u64, BadValue>
    ensures { Gives (λ n. n) result (share_at number rest.now) }
{
    match rest {
        [] => Ok(number.thousandths),
        [b'%'] if number.places <= 1 => Ok(number.thousandths / 100),
        _ => Err(BadValue),
    }
}

// The thousandths of full power that a text writes.
#[tactic(auto, unfolding(crate::specs::Reading::power_at))]
fn thousandths(text: &[u8]) -> Result<u16, BadValue>
    ensures { Gives (λ n. n) result (power_at text.now) }
{
    let (number, rest) = split_decimal(text)?;
    let power = share(number, rest)?;
    if power > FULL {
        return Err(BadValue);
    }
    Ok(power as u16)
}

/// A power in thousandths of full power, 0 to 1000: a number from 0 to 1 with up to three decimals,
/// or one from 0 to 100 with up to one decimal and `%` right after it, as in `0.25` and `25%`;
/// there is a digit on each side of the point. Any other text is `BadValue`: one above full power,
/// one of more decimals, `.5`, and one with a blank in it.
pub fn power(text: &[u8]) -> Result<u16, BadValue>
    // The result is the value of the text.
    ensures found { IfOk result (λ power. IsPower text.now power) }

    // The text has no other value.
    ensures only { IfOk result (λ power. (n : ℕ) → IsPower text.now n → n ≡ power) }

    // A text that is refused has no value.
    ensures refused { IfErr result (λ _. (power : ℕ) → IsPower text.now power → ⊥) }

    // The result is what reading the text gives.
    ensures exact { Gives (λ n. n) result (power_at text.now) }
{
    thousandths(text)
}
