//! The modes that the machine text lists, and the names of their texts.

ghost use Rattle.std.specs.Prelude.{◌<◌, length, IfOk, IfSome};
ghost use Rattle.mpf_config.specs.Gives.{AreListed, IsModeOfText};

use crate::listed_mode::ListedMode;
use crate::texts::mode_text_name;
use setting_values::values::Name;
use std::alloc::{AllocError, Global};

/// The modes of these names, in order, each with the name of its text.
pub fn modes_with_texts<'a>(
    alloc: Global,
    names: &'a [Name],
) -> Result<Vec<ListedMode<'a>>, AllocError>
    ensures { IfOk result (λ modes. AreListed names.now modes.items) }
{
    let mut modes = Vec::with_capacity(alloc, names.len())?;
    for name in names {
        let text = mode_text_name(alloc, &name.text)?;
        modes.push(ListedMode { name, text })?;
    }
    Ok(modes)
}

/// The mode whose text has this name, with its place in the list.
pub fn mode_of<'a>(modes: &[ListedMode<'a>], text: &[u8]) -> Option<(usize, &'a Name)>
    ensures found { IsModeOfText modes.now text.now result }
    ensures within { IfSome result (λ found. found.0 < length modes.now) }
{
    for (place, mode) in modes.iter().enumerate() {
        if mode.text.as_slice() == text {
            return Some((place, mode.name));
        }
    }
    None
}
