//! The entries of texts. No two of them may have the same section and the same name.

ghost use Rattle.std.specs.Prelude.{◌≡◌, ◌++◌, [], false, map, IfOk, IfErr};
ghost use Rattle.std.specs.Str.{bytes_eq};
ghost use Rattle.yaml_subset.specs.Keys.{is_among};
ghost use Rattle.config_faults.specs.declared.fault.ConfigFault.TheVariants.{NoMemory};
ghost use Rattle.mpf_config.specs.Apart.{join_texts, entry_key};
ghost use Rattle.mpf_config.specs.Gives.{Passes, entries_of_section, entries_of_sections, keys_of_sections, is_new_key};
ghost use Rattle.mpf_config.specs.Gives.{TakesKeys, GainsKeys, AreTaken, AreEntriesDistinct, keys_taken};
ghost use Rattle.mpf_config.specs.Gives.{entries_all_new, entries_new_beside};

use crate::config::Section;
use crate::fault::{BundleFaultKind, ConfigFault};
use crate::texts::MACHINE_NAME;
use config_faults::Spot;
use std::alloc::{AllocError, Global};
use std::borrow::CowSlice;
use yaml_subset::keys::{KeySet, take_key};

/// The front of the keys of a section's entries: the key of an entry is this and its name. No two
/// entries of two sections, or with two names, have one key.
fn front_of(alloc: Global, section: &[u8]) -> Result<Vec<u8>, AllocError>
    ensures { IfOk result (λ front. front.items ≡ join_texts section.now []) }
{
    let mut front = Vec::new(alloc);
    for byte in section {
        front.push(1)?;
        front.push(*byte)?;
    }
    front.push(0)?;
    Ok(front)
}

/// The key of an entry of this name, in a section whose keys have this front.
fn key_of(alloc: Global, front: &[u8], name: &[u8]) -> Result<Vec<u8>, AllocError>
    ensures { IfOk result (λ key. key.items ≡ front.now ++ name.now) }
{
    let mut key = Vec::with_capacity(alloc, front.len().saturating_add(name.len()))?;
    key.extend_from_slice(front)?;
    key.extend_from_slice(name)?;
    Ok(key)
}

/// Takes an entry by its key, and says whether it is new. If memory runs out, it may be taken or not.
fn take_entry(
    alloc: Global,
    front: &[u8],
    name: &[u8],
    known_keys: &mut KeySet,
) -> Result<bool, AllocError>
    ensures fresh { IfOk result (λ fresh. fresh ≡ is_new_key known_keys.old (front.now ++ name.now)) }
    ensures known { IfOk result (λ _. TakesKeys known_keys.old known_keys.new (bytes_eq (front.now ++ name.now))) }
{
    let key = key_of(alloc, front, name)?;
    let fresh = take_key(known_keys, CowSlice::Owned(key))?;
    Ok(fresh)
}

/// Takes the entries of a section. The fault is Duplicate at the first that is not new.
fn take_section(
    alloc: Global,
    text: &[u8],
    section: &Section,
    known_keys: &mut KeySet,
) -> Result<(), ConfigFault>
    ensures value { Passes result (entries_all_new text.now known_keys.old (entries_of_section section.now)) }
    ensures known { IfOk result (λ _. TakesKeys known_keys.old known_keys.new
        (is_among (map entry_key (entries_of_section section.now)))) }
{
    let front = front_of(alloc, &section.name)?;
    let entries = section.content.entries();
    known_keys.reserve(entries.len())?;
    for entry in entries {
        let name = &entry.name;
        let fresh = take_entry(alloc, &front, &name.text, known_keys)?;
        if !fresh {
            let at = Spot {
                text,
                line: name.line,
                key: &name.text,
            };
            return Err(ConfigFault::Bundle(at.fault(alloc, BundleFaultKind::Duplicate)?));
        }
    }
    Ok(())
}

/// Takes the entries of the sections of this text. The fault is Duplicate at the first that is not new.
fn take_entries(
    alloc: Global,
    text: &[u8],
    sections: &[Section],
    known_keys: &mut KeySet,
) -> Result<(), ConfigFault>
    ensures value { Passes result (entries_all_new text.now known_keys.old (entries_of_sections sections.now)) }
    ensures known { IfOk result (λ _. TakesKeys known_keys.old known_keys.new
        (is_among (keys_of_sections sections.now))) }
{
    for section in sections {
        take_section(alloc, text, section, known_keys)?;
    }
    Ok(())
}

/// Takes the entries of the machine text, which has these sections, if none is taken yet.
fn take_machine(
    alloc: Global,
    machine: &[Section],
    known_keys: &mut KeySet,
) -> Result<(), ConfigFault>
    requires { AreEntriesDistinct machine.now }
    ensures known { IfOk result (λ _. AreTaken known_keys.new (keys_taken machine.now known_keys.old)) }
    ensures fails { IfErr result (λ e. e ≡ NoMemory) }
{
    if known_keys.is_empty() {
        take_entries(alloc, MACHINE_NAME, machine, known_keys)?;
    }
    Ok(())
}

/// Whether one of these sections has an entry.
fn have_entries(sections: &[Section]) -> bool
    ensures { result ≡ false → entries_of_sections sections.now ≡ [] }
{
    for section in sections {
        if !section.content.entries().is_empty() {
            return true;
        }
    }
    false
}

/// Takes the entries of the text of a mode, which has these sections. The fault is Duplicate at the
/// first that is not new. Those of the machine text are taken before, once a mode has entries.
pub fn take_beside(
    alloc: Global,
    text: &[u8],
    machine: &[Section],
    sections: &[Section],
    known_keys: &mut KeySet,
) -> Result<(), ConfigFault>
    requires { AreEntriesDistinct machine.now }
    ensures value { Passes result (entries_new_beside text.now machine.now known_keys.old sections.now) }
    ensures known { IfOk result (λ _. GainsKeys machine.now known_keys.old known_keys.new
        (is_among (keys_of_sections sections.now))) }
{
    if !have_entries(sections) {
        return Ok(());
    }
    take_machine(alloc, machine, known_keys)?;
    take_entries(alloc, text, sections, known_keys)
}
