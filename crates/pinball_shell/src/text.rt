//! A text is read whole before it is checked, and texts are joined into a bundle.

ghost use Rattle.std.specs.Prelude.{◌≡◌, ◌≢◌, ◌^◌, ◌<◌, ◌≤◌, IfOk, OnOk, IfErr, IfSome, IsErrOf, IsTrue, false};
ghost use Rattle.std.specs.Prelude.{vec_len, length, ◌⊎◌};
ghost use Rattle.std.specs.Io.KnownBytes.{IsAtEnd};
ghost use Rattle.pinball_shell.specs.Joined.{join_text, line_end};
ghost use Rattle.pinball_shell.specs.TextRead.{HasMoreThan};

use crate::check::BUNDLE_LIMIT;
use crate::fault::ShellFault;
use std::alloc::{AllocError, Global};
use std::io::Read;

/// How many bytes a read asks for.
const PIECE: usize = 65_536;

/// All bytes that the reader gives, up to the first read of no byte. The reader is asked at most
/// `limit` + 1 times.
///
/// # Errors
///
/// After each of them, how far the reader has been read is not said.
///
/// - `Read`: a read failed.
/// - `TooLong`: there are more than `limit` bytes. Nothing is read after the first read that shows
///   this.
/// - `NoMemory`: there is no room for them.
pub fn read_all<R: Read>(alloc: Global, reader: &mut R, limit: usize) -> Result<Vec<u8>, ShellFault>
    ensures all { IfOk result (λ all. IfSome (R.remaining reader.old) (λ input. all.items ≡ input)) }
    ensures end { OnOk result (IsAtEnd (R.remaining reader.new)) }
    ensures within { IfOk result (λ all. vec_len all ≤ limit) }
    ensures too_long { IsErrOf result ShellFault.TooLong → HasMoreThan limit (R.remaining reader.old) }
    ensures reads_only { IfErr result (λ e. e ≢ ShellFault.Write) }
    ensures no_devices { IfErr result (λ e. e ≢ ShellFault.WrongDevice) }
{
    let mut all = Vec::new(alloc);
    let mut piece = [0u8; PIECE];
    loop {
        let count = match reader.read(&mut piece) {
            Ok(count) => count,
            Err(_) => return Err(ShellFault::Read),
        };
        if count == 0 {
            return Ok(all);
        }
        if count > limit - all.len() {
            return Err(ShellFault::TooLong);
        }
        all.extend_from_slice(&piece[..count])?;
    }
}

/// A bundle with one text more: the bundle, the line `@ NAME`, and the text, which gets a line end
/// if it is not empty and lacks one.
///
/// # Errors
///
/// - `TooLong`: that would have more than 8 MiB.
/// - `NoMemory`: there is no room for it.
pub fn join(alloc: Global, bundle: &[u8], name: &[u8], text: &[u8]) -> Result<Vec<u8>, ShellFault>
    ensures joins { IfOk result (λ all. all.items ≡ join_text bundle.now name.now text.now) }
    ensures within { IfOk result (λ all. vec_len all ≤ 2 ^ 23) }
    ensures too_long { IsErrOf result ShellFault.TooLong → 2 ^ 23 < length (join_text bundle.now name.now text.now) }
    ensures fails { IfErr result (λ e. (e ≡ ShellFault.TooLong) ⊎ (e ≡ ShellFault.NoMemory)) }
{
    if is_too_long(bundle, name, text) {
        return Err(ShellFault::TooLong);
    }
    let mut all = Vec::from_slice(alloc, bundle)?;
    add_text(&mut all, name, text)?;
    Ok(all)
}

/// Makes of a bundle what [`join`] gives, in place: of the bundle nothing is copied but where its
/// vector grows.
///
/// # Errors
///
/// - `TooLong`: it would have more than 8 MiB. It is as it was.
/// - `NoMemory`: there is no room for it. How much has been added is not said.
pub fn append_text(bundle: &mut Vec<u8>, name: &[u8], text: &[u8]) -> Result<(), ShellFault>
    ensures joins { OnOk result (bundle.new.items ≡ join_text bundle.old.items name.now text.now) }
    ensures within { OnOk result (vec_len bundle.new ≤ 2 ^ 23) }
    ensures too_long { IsErrOf result ShellFault.TooLong
        → 2 ^ 23 < length (join_text bundle.old.items name.now text.now) }
    ensures same { IsErrOf result ShellFault.TooLong → bundle.new ≡ bundle.old }
    ensures fails { IfErr result (λ e. (e ≡ ShellFault.TooLong) ⊎ (e ≡ ShellFault.NoMemory)) }
{
    if is_too_long(bundle, name, text) {
        return Err(ShellFault::TooLong);
    }
    add_text(bundle, name, text)?;
    Ok(())
}

/// Whether a bundle with one text more would be too long.
fn is_too_long(bundle: &[u8], name: &[u8], text: &[u8]) -> bool
    ensures over { IsTrue result → 2 ^ 23 < length (join_text bundle.now name.now text.now) }
    ensures within { result ≡ false → length (join_text bundle.now name.now text.now) ≤ 2 ^ 23 }
{
    let end = line_end(text);
    let parts = bundle.len() as u128 + name.len() as u128 + text.len() as u128;
    parts + 3 + end.len() as u128 > BUNDLE_LIMIT as u128
}

/// Adds a text to a bundle. Fails only by memory.
fn add_text(all: &mut Vec<u8>, name: &[u8], text: &[u8]) -> Result<(), AllocError>
    ensures { OnOk result (all.new.items ≡ join_text all.old.items name.now text.now) }
{
    let end = line_end(text);
    all.extend_from_slice(b"@ ")?;
    all.extend_from_slice(name)?;
    all.extend_from_slice(b"\n")?;
    all.extend_from_slice(text)?;
    all.extend_from_slice(end)?;
    Ok(())
}

/// The line end that a text lacks.
fn line_end(text: &[u8]) -> &'static [u8]
    ensures { result.now ≡ line_end text.now }
{
    if text.is_empty() || text[text.len() - 1] == b'\n' {
        b""
    } else {
        b"\n"
    }
}
