//! Times.

ghost use Rattle.std.specs.Prelude.{◌≡◌, ℕ, IfOk, IfErr};
ghost use Rattle.mpf_values.specs.Times.{IsTime};
ghost use Rattle.mpf_values.specs.Reading.{unit_at, time_at};
ghost use Rattle.mpf_values.specs.View.{Gives};

use crate::decimals::split_decimal;
use crate::fault::BadValue;
use yaml_bytes::behind_blanks;

// How many milliseconds a unit is.
#[tactic(auto, unfolding(crate::specs::Reading::unit_at))]
fn unit(text: &[u8]) -> Result<u64, BadValue>
    ensures { Gives (λ n. n) result (unit_at text.now) }
{
    match text {
        b"" | b"ms" => Ok(1),
        b"s" => Ok(1_000),
        b"m" => Ok(60_000),
        b"h" => Ok(3_600_000),
        b"d" => Ok(86_400_000),
        _ => Err(BadValue),
    }
}

// The milliseconds that a text writes.
#[tactic(auto, unfolding(crate::specs::Reading::time_at))]
fn milliseconds(text: &[u8]) -> Result<u32, BadValue>
    ensures { Gives (λ n. n) result (time_at text.now) }
{
    let (number, rest) = split_decimal(text)?;
    let unit = unit(behind_blanks(rest))?;
    let product = number.thousandths.checked_mul(unit).ok_or(BadValue)?;
    let whole = product / 1000;
    if product % 1000 != 0 || whole > u64::from(u32::MAX) {
        return Err(BadValue);
    }
    Ok(whole as u32)
}

/// A time in milliseconds, below 2^32: a number, and after it, with or without blanks between, a
/// unit: `ms`, `s`, `m`, `h` or `d`, or nothing for milliseconds. The number may have up to three
/// decimals if the time is a whole number of milliseconds, as in `1.5s`; there is a digit on
/// each side of the point. Any other text is `BadValue`: `0.5ms`, which is not whole, `50d`, which
/// is not below 2^32 ms, `.5s`, `5S`, and one with a blank in front.
pub fn time(text: &[u8]) -> Result<u32, BadValue>
    // The result is the value of the text.
    ensures found { IfOk result (λ ms. IsTime text.now ms) }

    // The text has no other value.
    ensures only { IfOk result (λ ms. (n : ℕ) → IsTime text.now n → n ≡ ms) }

    // A text that is refused has no value.
    ensures refused { IfErr result (λ _. (ms : ℕ) → IsTime text.now ms → ⊥) }

    // The result is what reading the text gives.
    ensures exact { Gives (λ n. n) result (time_at text.now) }
{
    milliseconds(text)
}
