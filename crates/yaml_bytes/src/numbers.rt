//! Numbers that are written in decimal digits.

ghost use Rattle.std.specs.Prelude.{◌≡◌};
ghost use Rattle.std.specs.List.{list_all};
ghost use Rattle.std.specs.Char.{is_ascii_digit};
ghost use Rattle.yaml_bytes.specs.Numbers.{number_at};

/// The number that a text writes in decimal digits alone, if it is below 2^64. Any other text has
/// none, nor has the empty one. Zeros in front are read, a `+` is not.
pub fn number(text: &[u8]) -> Option<u64>
    ensures { result ≡ number_at text.now }
{
    // `parse` would take a `+` in front.
    if !has_digits_only(text) {
        return None;
    }
    std::str::from_utf8(text).ok()?.parse().ok()
}

// Whether every byte is a digit.
fn has_digits_only(text: &[u8]) -> bool
    ensures { result ≡ list_all is_ascii_digit text.now }
{
    text.iter().all(|b| b.is_ascii_digit())
}
