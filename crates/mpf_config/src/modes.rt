//! The texts of modes.

ghost use Rattle.std.specs.Prelude.{◌≡◌, [], length, IfOk};
ghost use Rattle.yaml_subset.specs.Keys.{copies_view, is_among};
ghost use Rattle.mpf_config.specs.Gives.{GainsKeys, GivesMode, GivesModes, LeavesModes, mode_of_text, new_mode_of_text};
ghost use Rattle.mpf_config.specs.Gives.{keys_of_mode, with_mode_of_text, keys_at_text, IsNoneFound};
ghost use Rattle.mpf_config.specs.Gives.{with_modes_of_texts, AreEntriesDistinct, modes_of_texts, AreModesFound};
ghost use Rattle.mpf_config.specs.Gives.{notes_found, GainsNotes};

use crate::config::{ModeText, Note, Section};
use crate::fault::{BundleFaultKind, ConfigFault};
use crate::listed::mode_of;
use crate::listed_mode::ListedMode;
use crate::sections::{sections, sections_in};
use crate::spot::line_of;
use crate::taken::take_beside;
use crate::texts::NamedText;
use crate::unread::mode_notes;
use crate::version::tree_of;
use mpf_tables::TextKind;
use setting_values::values::Name;
use std::alloc::{AllocError, Global};
use std::borrow::CowSlice;
use yaml_subset::keys::{KeyHashing, KeySet, no_keys, take_key};

/// A mode by its text, with the notes on that text.
#[derive(Drop)]
pub struct ModeRead {
    pub mode: ModeText,
    pub notes: Vec<Note>,
}

/// The mode of this name by its text; or the first fault in it.
#[tactic(auto, unfolding(crate::specs::Reading::mode_read_at, crate::specs::Reading::text_rows_at))]
fn read_mode(
    alloc: Global,
    hashing: KeyHashing,
    name: &Name,
    text: NamedText<'_>,
) -> Result<ModeRead, ConfigFault>
    ensures { GivesMode result (mode_of_text name.now text.entry) }
{
    let tree = tree_of(alloc, hashing, text.name, text.text)?;
    let entries = sections_in(alloc, text.name, &tree)?;
    let sections = sections(alloc, TextKind::Mode, text.name, entries.pairs)?;
    let notes = mode_notes(alloc, text.name, entries.pairs)?;
    let name = Vec::from_slice(alloc, &name.text)?;
    Ok(ModeRead {
        mode: ModeText { name, sections },
        notes,
    })
}

/// The same, if none of its entries is taken. The fault is Duplicate at the first that is. They are
/// taken then, and those of the machine text before.
#[tactic(auto, unfolding(crate::specs::Reading::new_mode_at))]
fn read_new_mode(
    alloc: Global,
    hashing: KeyHashing,
    machine: &[Section],
    name: &Name,
    text: NamedText<'_>,
    known_keys: &mut KeySet,
) -> Result<ModeRead, ConfigFault>
    requires distinct { AreEntriesDistinct machine.now }
    ensures value { GivesMode result (new_mode_of_text machine.now known_keys.old name.now text.entry) }
    ensures known { IfOk result (λ read. GainsKeys machine.now known_keys.old known_keys.new
        (is_among (keys_of_mode read))) }
{
    let read = read_mode(alloc, hashing, name, text)?;
    take_beside(alloc, text.name, machine, &read.mode.sections, known_keys)?;
    Ok(read)
}

/// Reads a text, and puts its mode at its place in the list; or the first fault in it. Does nothing
/// if it is the text of no listed mode.
fn place(
    alloc: Global,
    hashing: KeyHashing,
    machine: &[Section],
    modes: &[ListedMode<'_>],
    text: NamedText<'_>,
    known_keys: &mut KeySet,
    mode_reads: &mut [Option<ModeRead>],
) -> Result<(), ConfigFault>
    requires distinct { AreEntriesDistinct machine.now }
    requires as_long { length mode_reads.old ≡ length modes.now }
    ensures value { LeavesModes mode_reads.new result
        (with_mode_of_text machine.now known_keys.old modes.now mode_reads.old text.entry) }
    ensures known { IfOk result (λ _. GainsKeys machine.now known_keys.old known_keys.new
        (is_among (keys_at_text modes.now mode_reads.new text.entry))) }
{
    if let Some((place, name)) = mode_of(modes, text.name) {
        mode_reads[place] = Some(read_new_mode(alloc, hashing, machine, name, text, known_keys)?);
    }
    Ok(())
}

/// `None` for each mode of the list.
fn none_found(alloc: Global, modes: &[ListedMode<'_>]) -> Result<Vec<Option<ModeRead>>, AllocError>
    ensures { IfOk result (λ mode_reads. IsNoneFound modes.now mode_reads.items) }
{
    let mut mode_reads = Vec::with_capacity(alloc, modes.len())?;
    for _ in modes {
        mode_reads.push(None)?;
    }
    Ok(mode_reads)
}

/// Takes each text to the place of its mode, in the order of the bundle; or the first fault, which
/// may also be Duplicate at a text with the name of an earlier one. The set takes the names.
fn place_all<'a>(
    alloc: Global,
    hashing: KeyHashing,
    machine: &[Section],
    modes: &[ListedMode<'_>],
    texts: &[NamedText<'a>],
    names: &mut KeySet<'a>,
    known_keys: &mut KeySet,
    mode_reads: &mut [Option<ModeRead>],
) -> Result<(), ConfigFault>
    requires distinct { AreEntriesDistinct machine.now }
    requires none { IsNoneFound modes.now mode_reads.old }
    requires no_names { copies_view names.old ≡ [] }
    ensures { LeavesModes mode_reads.new result
        (with_modes_of_texts machine.now known_keys.old modes.now mode_reads.old texts.now) }
{
    for text in texts {
        let fresh = take_key(names, CowSlice::Borrowed(text.name))?;
        if !fresh {
            let fault = line_of(text.name, 1).fault(alloc, BundleFaultKind::Duplicate)?;
            return Err(ConfigFault::Bundle(fault));
        }
        place(
            alloc, hashing, machine, modes, *text, known_keys, mode_reads,
        )?;
    }
    Ok(())
}

/// The modes that are found in texts, each at its place in the list of modes; or the first fault in
/// the order of the bundle. No two texts may have one name, and no entry may be taken: neither by
/// the machine text, which has these sections, nor by an earlier mode.
pub fn find_modes(
    alloc: Global,
    hashing: KeyHashing,
    machine: &[Section],
    modes: &[ListedMode<'_>],
    texts: &[NamedText<'_>],
    known_keys: &mut KeySet,
) -> Result<Vec<Option<ModeRead>>, ConfigFault>
    requires { AreEntriesDistinct machine.now }
    ensures { GivesModes result (modes_of_texts machine.now known_keys.old modes.now texts.now) }
{
    let mut mode_reads = none_found(alloc, modes)?;
    let mut names = no_keys(alloc, hashing);
    place_all(
        alloc,
        hashing,
        machine,
        modes,
        texts,
        &mut names,
        known_keys,
        &mut mode_reads,
    )?;
    Ok(mode_reads)
}

/// The modes that were found, in order. The notes on them are added.
pub fn take_modes(
    alloc: Global,
    mode_reads: Vec<Option<ModeRead>>,
    notes: &mut Vec<Note>,
) -> Result<Vec<ModeText>, AllocError>
    ensures modes { IfOk result (λ modes. AreModesFound mode_reads.items modes.items) }
    ensures adds { IfOk result (λ _. GainsNotes notes.old notes.new (notes_found mode_reads.items)) }
{
    let mut modes = Vec::with_capacity(alloc, mode_reads.len())?;
    for one in mode_reads {
        if let Some(mut read) = one {
            notes.append(&mut read.notes)?;
            modes.push(read.mode)?;
        }
    }
    Ok(modes)
}
