//! Texts are read by their paths, and joined into a bundle.

ghost use Rattle.std.specs.Prelude.{◌≡◌, ◌≤◌, ◌^◌, None, [], map, IfOk, IfErr, IfSome, OnOk, string_bytes, vec_len};
ghost use Rattle.mpf_config.specs.BundleText.{machine_name, mode_text_name};
ghost use Rattle.mpf_config.specs.CodeViews.{names_only_view};
ghost use Rattle.machine_folder.specs.Bundles.{path_of, with_text, IsMachineRead, IsModeJoined, AreJoined, IsBundleIn};
ghost use Rattle.machine_folder.specs.Bundles.{MayLack, NamesUnread, IsOfReading, MakesTooLong, IsOverWith, IsOverAt};
ghost use Rattle.machine_folder.specs.Bundles.{IsTooLongAt, NamesTooLong};

use crate::modes::readable_mode_names;
use mpf_config::{MACHINE_NAME, mode_text_name};
use pinball_shell::{Failure, ShellFault, append_text, join};
use std::alloc::{AllocError, Global};

/// Texts, each at a path.
pub trait Texts {
    ghost use Rattle.std.specs.Prelude.{◌≡◌, ℕ, List, Option, None, IfOk, IfErr};
    ghost use Rattle.machine_folder.specs.Bundles.{IsTextAt, MayExceed, IsOfReading};

    /// What is at a path, if that is known: a text, or none.
    ghost text_at: { Self → List ℕ → Option (Option (List ℕ)) };

    /// The text at a path. None if there is no text.
    ///
    /// # Errors
    ///
    /// - `NoMemory`: there is no room for the text.
    /// - `TooLong`: it has more than 8 MiB.
    /// - `Read`: there may be a text, and it cannot be read. If it is known what is at the path, this
    ///   does not come.
    fn text(&self, alloc: Global, path: &str) -> Result<Option<Vec<u8>>, ShellFault>
        ensures found { IfOk result (λ found. IsTextAt (text_at self.now path.now) found) }
        ensures read { IfErr result (λ e. e ≡ ShellFault.Read → text_at self.now path.now ≡ None) }
        ensures too_long { IfErr result (λ e. e ≡ ShellFault.TooLong → MayExceed (text_at self.now path.now)) }
        ensures fails { IfErr result (λ e. IsOfReading e) };
}

/// The bundle of the machine whose texts are in this folder: the machine text, and then the texts of
/// the modes that it lists, in the order of the list. A mode without a text is left out. Where the
/// list cannot be read, the bundle has the machine text alone, and what reads the bundle reports the fault.
///
/// # Errors
///
/// With the path of the text that is at fault.
///
/// - `Read`: there is no machine text, or a text cannot be read.
/// - `TooLong`: a text, or the bundle up to it, has more than 8 MiB.
/// - `NoMemory`: memory ran out. No path is named.
pub fn folder_bundle<T: Texts>(alloc: Global, texts: &T, folder: &str) -> Result<Vec<u8>, Failure>
    ensures bundle { IfOk result (λ all. IsBundleIn (T.text_at texts.now) folder.now all.items) }
    ensures within { IfOk result (λ all. vec_len all ≤ 2 ^ 23) }
    ensures read { IfErr result (λ failure. NamesUnread (T.text_at texts.now) folder.now failure) }
    ensures too_long { IfErr result (λ failure. NamesTooLong failure (IsTooLongAt (T.text_at texts.now) folder.now)) }
    ensures fails { IfErr result (λ failure. IsOfReading failure.fault) }
{
    let path = path_in(alloc, folder, MACHINE_NAME)?;
    match read_machine(alloc, texts, &path) {
        Ok((mut bundle, modes)) => {
            append_modes(alloc, texts, folder, &modes, &mut bundle)?;
            Ok(bundle)
        }
        Err(fault) => Err(Failure::at(fault, path)),
    }
}

/// The bundle of the machine text at this path alone, and the names of the modes that the text lists.
fn read_machine<T: Texts>(
    alloc: Global,
    texts: &T,
    path: &str,
) -> Result<(Vec<u8>, Vec<Vec<u8>>), ShellFault>
    ensures read { IfOk result (λ read. IsMachineRead (T.text_at texts.now path.now) read.0.items
        (names_only_view read.1)) }
    ensures within { IfOk result (λ read. vec_len read.0 ≤ 2 ^ 23) }
    ensures unread { IfErr result (λ e. e ≡ ShellFault.Read → MayLack (T.text_at texts.now path.now)) }
    ensures too_long { IfErr result (λ e. e ≡ ShellFault.TooLong
        → MakesTooLong (T.text_at texts.now path.now) machine_name []) }
    ensures fails { IfErr result (λ e. IsOfReading e) }
{
    let Some(text) = texts.text(alloc, path)? else {
        return Err(ShellFault::Read);
    };
    let modes = readable_mode_names(alloc, &text)?;
    let bundle = join(alloc, b"", MACHINE_NAME, &text)?;
    Ok((bundle, modes))
}

/// Adds the texts of these modes to the bundle, in their order, but for those that have none.
fn append_modes<T: Texts>(
    alloc: Global,
    texts: &T,
    folder: &str,
    modes: &[Vec<u8>],
    bundle: &mut Vec<u8>,
) -> Result<(), Failure>
    requires { vec_len bundle.old ≤ 2 ^ 23 }
    ensures joins { OnOk result (AreJoined (T.text_at texts.now) folder.now (map (λ mode. mode.items) modes.now)
        bundle.old.items bundle.new.items) }
    ensures within { OnOk result (vec_len bundle.new ≤ 2 ^ 23) }
    ensures read { IfErr result (λ failure. NamesUnread (T.text_at texts.now) folder.now failure) }
    ensures too_long { IfErr result (λ failure. NamesTooLong failure (IsOverAt (T.text_at texts.now) folder.now
        (map (λ mode. mode.items) modes.now) bundle.old.items)) }
    ensures fails { IfErr result (λ failure. IsOfReading failure.fault) }
{
    for mode in modes {
        append_mode(alloc, texts, folder, mode, bundle)?;
    }
    Ok(())
}

/// Adds the text of this mode to the bundle, unless it has none.
fn append_mode<T: Texts>(
    alloc: Global,
    texts: &T,
    folder: &str,
    mode: &[u8],
    bundle: &mut Vec<u8>,
) -> Result<(), Failure>
    requires { vec_len bundle.old ≤ 2 ^ 23 }
    ensures joins { OnOk result (IsModeJoined (T.text_at texts.now) folder.now mode.now bundle.old.items
        bundle.new.items) }
    ensures within { OnOk result (vec_len bundle.new ≤ 2 ^ 23) }
    ensures read { IfErr result (λ failure. NamesUnread (T.text_at texts.now) folder.now failure) }
    ensures too_long { IfErr result (λ failure. NamesTooLong failure (IsOverWith (T.text_at texts.now) folder.now
        (mode_text_name mode.now) bundle.old.items)) }
    ensures fails { IfErr result (λ failure. IsOfReading failure.fault) }
{
    let name = mode_text_name(alloc, mode)?;
    let path = path_in(alloc, folder, &name)?;
    match append_text_at(alloc, texts, &path, &name, bundle) {
        Ok(()) => Ok(()),
        Err(fault) => Err(Failure::at(fault, path)),
    }
}

/// Adds the text at this path to the bundle under this name, unless there is none.
fn append_text_at<T: Texts>(
    alloc: Global,
    texts: &T,
    path: &str,
    name: &[u8],
    bundle: &mut Vec<u8>,
) -> Result<(), ShellFault>
    requires { vec_len bundle.old ≤ 2 ^ 23 }
    ensures joins { OnOk result (IfSome (T.text_at texts.now path.now)
        (λ text. bundle.new.items ≡ with_text bundle.old.items name.now text)) }
    ensures within { OnOk result (vec_len bundle.new ≤ 2 ^ 23) }
    ensures read { IfErr result (λ e. e ≡ ShellFault.Read → T.text_at texts.now path.now ≡ None) }
    ensures too_long { IfErr result (λ e. e ≡ ShellFault.TooLong
        → MakesTooLong (T.text_at texts.now path.now) name.now bundle.old.items) }
    ensures fails { IfErr result (λ e. IsOfReading e) }
{
    match texts.text(alloc, path)? {
        Some(text) => append_text(bundle, name, &text),
        None => Ok(()),
    }
}

/// The path of a text of a folder. All bytes of the text's name are ASCII.
fn path_in(alloc: Global, folder: &str, text: &[u8]) -> Result<String, AllocError>
    ensures { IfOk result (λ path. string_bytes path ≡ path_of folder.now text.now) }
{
    let text = String::from_utf8_lossy(alloc, text)?;
    let mut path = String::from_str(alloc, folder)?;
    path.push_str("/")?;
    path.push_str(&text)?;
    Ok(path)
}
