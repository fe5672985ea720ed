//! How names and keys are printed, so that none of their bytes begins a line of the output.

ghost use Rattle.std.specs.Prelude.{◌≡◌, ◌<◌, ℕ, List, false, OnOk};
ghost use Rattle.std.specs.List.{All, list_any};
ghost use Rattle.std.specs.Io.KnownBytes.{Appends};
ghost use Rattle.mpf_config.specs.Escaped.{is_control, hex_digit, escaped_byte, escape_bytes};

use std::io::{self, Write};

/// Writes a text. A byte below 32, or 127, is written as `\x` and two hexadecimal digits, in lower
/// case.
///
/// # Errors
///
/// The writer's error. Any part of the text may have been written then.
pub fn write_escaped<W: Write>(text: &[u8], writer: &mut W) -> io::Result<()>
    ensures { OnOk result (Appends (W.contents writer.old) (W.contents writer.new) (escape_bytes text.now)) }
{
    if has_control(text) {
        return write_bytes(text, writer);
    }
    // Nothing is to be escaped.
    writer.write_all(text)
}

/// The law of what is written: none of its bytes is below 32, and none is 127. So no text of a
/// bundle makes a line of the output.
///
/// It does nothing: its contract is the law, over all texts.
pub fn escaped_makes_no_line()
    ensures { (text : List ℕ) → All (λ b. is_control b ≡ false) (escape_bytes text) }
{}

// Whether a byte of a text is to be escaped.
fn has_control(text: &[u8]) -> bool
    ensures { result ≡ list_any is_control text.now }
{
    text.iter().any(|byte| is_control(*byte))
}

// Writes a text, byte by byte.
fn write_bytes<W: Write>(text: &[u8], writer: &mut W) -> io::Result<()>
    ensures { OnOk result (Appends (W.contents writer.old) (W.contents writer.new) (escape_bytes text.now)) }
{
    for byte in text {
        write_byte(*byte, writer)?;
    }
    Ok(())
}

fn write_byte<W: Write>(byte: u8, writer: &mut W) -> io::Result<()>
    ensures { OnOk result (Appends (W.contents writer.old) (W.contents writer.new) (escaped_byte byte)) }
{
    if is_control(byte) {
        let escape = [b'\\', b'x', hex_digit(byte / 16), hex_digit(byte % 16)];
        return writer.write_all(&escape);
    }
    writer.write_all(&[byte])
}

fn is_control(byte: u8) -> bool
    ensures { result ≡ is_control byte }
{
    byte < 32 || byte == 127
}

fn hex_digit(n: u8) -> u8
    requires { n < 16 }
    ensures { result ≡ hex_digit n }
{
    if n < 10 {
        return b'0' + n;
    }
    b'a' + (n - 10)
}
