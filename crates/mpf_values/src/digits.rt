//! Numbers that are written as digits alone.

ghost use Rattle.yaml_bytes.specs.Numbers.{number_at};
ghost use Rattle.mpf_values.specs.View.{Gives};

use crate::fault::BadValue;

/// The number that a text of digits writes, if it is below 2^64.
pub fn whole_number(text: &[u8]) -> Result<u64, BadValue>
    ensures { Gives (λ n. n) result (number_at text.now) }
{
    yaml_bytes::number(text).ok_or(BadValue)
}
