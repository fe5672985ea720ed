//! The bytes at the front of a text.

ghost use Rattle.std.specs.Prelude.{◌≡◌, ◌≤◌, length};
ghost use Rattle.std.specs.List.{prefix_len, list_all};
ghost use Rattle.std.specs.Char.{is_ascii_digit};
ghost use Rattle.mpf_values.specs.Bytes.{is_name_byte, is_operator_byte, is_word_byte, is_separator};
ghost use Rattle.mpf_values.specs.Reading.{front, behind};

use yaml_bytes::is_blank;

/// Whether a byte is an ASCII letter, a digit, `_`, `-` or `.`.
pub fn is_name_byte(b: u8) -> bool
    ensures { result ≡ is_name_byte b }
{
    b.is_ascii_alphanumeric() || b == b'_' || b == b'-' || b == b'.'
}

/// Whether a byte is one of `=`, `!`, `<` and `>`.
pub fn is_operator_byte(b: u8) -> bool
    ensures { result ≡ is_operator_byte b }
{
    b == b'=' || b == b'!' || b == b'<' || b == b'>'
}

/// Whether a byte is neither a blank nor a closing brace.
pub fn is_word_byte(b: u8) -> bool
    ensures { result ≡ is_word_byte b }
{
    !is_blank(b) && b != b'}'
}

/// Whether a byte is a comma, a space or a tab.
pub fn is_separator(b: u8) -> bool
    ensures { result ≡ is_separator b }
{
    b == b',' || is_blank(b)
}

/// Whether every byte is one that a name may have.
pub fn has_name_bytes_only(text: &[u8]) -> bool
    ensures { result ≡ list_all is_name_byte text.now }
{
    text.iter().all(|b| is_name_byte(*b))
}

// How many digits come first.
fn digits_len(text: &[u8]) -> usize
    ensures value { result ≡ prefix_len is_ascii_digit text.now }
    ensures within { result ≤ length text.now }
{
    text.iter().take_while(|b| b.is_ascii_digit()).count()
}

// How many bytes come first that a name may have.
fn name_len(text: &[u8]) -> usize
    ensures value { result ≡ prefix_len is_name_byte text.now }
    ensures within { result ≤ length text.now }
{
    text.iter().take_while(|b| is_name_byte(**b)).count()
}

// How many bytes of an operator come first.
fn operator_len(text: &[u8]) -> usize
    ensures value { result ≡ prefix_len is_operator_byte text.now }
    ensures within { result ≤ length text.now }
{
    text.iter().take_while(|b| is_operator_byte(**b)).count()
}

// How many bytes come before a blank or a closing brace.
fn word_len(text: &[u8]) -> usize
    ensures value { result ≡ prefix_len is_word_byte text.now }
    ensures within { result ≤ length text.now }
{
    text.iter().take_while(|b| is_word_byte(**b)).count()
}

// How many separators come first.
fn separators_len(text: &[u8]) -> usize
    ensures value { result ≡ prefix_len is_separator text.now }
    ensures within { result ≤ length text.now }
{
    text.iter().take_while(|b| is_separator(**b)).count()
}

/// A text without the separators at its front.
pub fn behind_separators(text: &[u8]) -> &[u8]
    ensures value { result.now ≡ behind is_separator text.now }
    ensures shorter { length result.now ≤ length text.now }
{
    text.split_at(separators_len(text)).1
}

/// The digits at the front, and what comes after them.
pub fn split_digits(text: &[u8]) -> (&[u8], &[u8])
    ensures front { result.0.now ≡ front is_ascii_digit text.now }
    ensures behind { result.1.now ≡ behind is_ascii_digit text.now }
{
    text.split_at(digits_len(text))
}

/// The bytes of a name at the front, and what comes after them.
pub fn split_name(text: &[u8]) -> (&[u8], &[u8])
    ensures front { result.0.now ≡ front is_name_byte text.now }
    ensures behind { result.1.now ≡ behind is_name_byte text.now }
{
    text.split_at(name_len(text))
}

/// The bytes of an operator at the front, and what comes after them.
pub fn split_operator(text: &[u8]) -> (&[u8], &[u8])
    ensures front { result.0.now ≡ front is_operator_byte text.now }
    ensures behind { result.1.now ≡ behind is_operator_byte text.now }
{
    text.split_at(operator_len(text))
}

/// What comes before the first blank or closing brace, and the rest.
pub fn split_value(text: &[u8]) -> (&[u8], &[u8])
    ensures front { result.0.now ≡ front is_word_byte text.now }
    ensures behind { result.1.now ≡ behind is_word_byte text.now }
{
    text.split_at(word_len(text))
}
