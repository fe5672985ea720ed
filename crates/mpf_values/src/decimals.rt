//! Numbers with up to three decimals.

ghost use Rattle.mpf_values.specs.Reading.{fraction_at, decimal_at};
ghost use Rattle.mpf_values.specs.View.{Gives};
ghost use Rattle.mpf_values.specs.ScalarViews.{decimal_view};

use crate::bytes::split_digits;
use crate::digits::whole_number;
use crate::fault::BadValue;

/// A number in thousandths, and how many decimals it was written with.
#[derive(Clone, Copy)]
pub struct Decimal {
    pub thousandths: u64,
    pub places: usize,
}

// The thousandths that decimals are, of which there are one to three.
#[tactic(auto, unfolding(crate::specs::Reading::fraction_at))]
fn fraction(decimals: &[u8]) -> Result<u64, BadValue>
    ensures { Gives (λ n. n) result (fraction_at decimals.now) }
{
    let worth: u64 = match decimals.len() {
        1 => 100,
        2 => 10,
        3 => 1,
        _ => return Err(BadValue),
    };
    whole_number(decimals)?.checked_mul(worth).ok_or(BadValue)
}

/// The number at the front of a text, and what comes after it. A number is digits, or digits, a
/// point and one to three digits.
#[tactic(auto, unfolding(crate::specs::Reading::decimal_at))]
pub fn split_decimal(text: &[u8]) -> Result<(Decimal, &[u8]), BadValue>
    ensures { Gives decimal_view result (decimal_at text.now) }
{
    let (digits, rest) = split_digits(text);
    let whole = whole_number(digits)?.checked_mul(1000).ok_or(BadValue)?;
    let [b'.', after @ ..] = rest else {
        let number = Decimal {
            thousandths: whole,
            places: 0,
        };
        return Ok((number, rest));
    };
    let (decimals, rest) = split_digits(after);
    let thousandths = whole.checked_add(fraction(decimals)?).ok_or(BadValue)?;
    let places = decimals.len();
    Ok((
        Decimal {
            thousandths,
            places,
        },
        rest,
    ))
}
