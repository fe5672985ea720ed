//! What is not read of a bundle, and the notes on it: sections that are not carried out, listed modes that have no
//! text, and texts that are neither the machine text nor that of a listed mode.

ghost use Rattle.std.specs.Prelude.{◌≡◌, IfOk, IfErr};
ghost use Rattle.mpf_config.specs.Unread.{is_skipped, has_text};
ghost use Rattle.config_faults.specs.declared.fault.ConfigFault.TheVariants.{NoMemory};
ghost use Rattle.mpf_config.specs.CodeViews.{texts_view};
ghost use Rattle.mpf_config.specs.Gives.{GainsNotes, IsSkippedNote, IsAbsentNote, IsUnlistedNote, notes_on_absent};
ghost use Rattle.mpf_config.specs.Gives.{notes_on_unlisted, AreMachineNotes, AreModeNotes};

use crate::config::{Note, NoteKind};
use crate::fault::ConfigFault;
use crate::listed::mode_of;
use crate::listed_mode::ListedMode;
use crate::texts::{MACHINE_NAME, NamedText};
use mpf_tables::tables::MODES_NAME;
use section_tables::is_one_of;
use setting_values::values::Name;
use std::alloc::{AllocError, Global};
use yaml_subset::tree::{Key, Tree};

/// The sections that are carried out nowhere.
const SKIPPED_SECTIONS: [&[u8]; 32] = [
    b"lights",
    b"light_player",
    b"light_settings",
    b"shows",
    b"show_player",
    b"sounds",
    b"sound_player",
    b"sound_pools",
    b"sound_system",
    b"slides",
    b"slide_player",
    b"widgets",
    b"widget_player",
    b"widget_styles",
    b"window",
    b"displays",
    b"playlists",
    b"playlist_player",
    b"segment_displays",
    b"segment_display_player",
    b"text_strings",
    b"images",
    b"videos",
    b"assets",
    b"hardware",
    b"keyboard",
    b"bcp",
    b"mpf",
    b"mpf-mc",
    b"logging",
    b"playfields",
    b"virtual_platform_start_active_switches",
];

/// Whether a section of this name is carried out nowhere.
pub fn is_skipped(name: &[u8]) -> bool
    ensures { result ≡ is_skipped name.now }
{
    is_one_of(&SKIPPED_SECTIONS, name)
}

/// The note on a skipped section of the text of this name.
fn skipped_note(alloc: Global, text: &[u8], entry: &(Key, Tree)) -> Result<Note, AllocError>
    ensures { IfOk result (λ note. IsSkippedNote text.now entry.now note) }
{
    let key = &entry.0;
    Ok(Note {
        kind: NoteKind::Skipped,
        text: Vec::from_slice(alloc, text)?,
        line: key.line,
        name: Vec::from_slice(alloc, &key.text)?,
    })
}

/// The note on a listed mode that has no text.
fn absent(alloc: Global, mode: &Name) -> Result<Note, AllocError>
    ensures { IfOk result (λ note. IsAbsentNote mode.now note) }
{
    Ok(Note {
        kind: NoteKind::Absent,
        text: Vec::from_slice(alloc, MACHINE_NAME)?,
        line: mode.line,
        name: Vec::from_slice(alloc, &mode.text)?,
    })
}

/// The note on an unlisted text.
fn unlisted_note(alloc: Global, text: NamedText<'_>) -> Result<Note, AllocError>
    ensures { IfOk result (λ note. IsUnlistedNote text.entry note) }
{
    Ok(Note {
        kind: NoteKind::Unlisted,
        text: Vec::from_slice(alloc, text.name)?,
        line: 0,
        name: Vec::from_slice(alloc, text.name)?,
    })
}

/// Whether there is a text of this name.
fn has_text(texts: &[NamedText<'_>], name: &[u8]) -> bool
    ensures { result ≡ has_text (texts_view texts.now) name.now }
{
    texts.iter().any(|text| text.name == name)
}

/// Adds the notes on the listed modes that have no text, in the order of the list.
fn add_absent(
    alloc: Global,
    modes: &[ListedMode<'_>],
    texts: &[NamedText<'_>],
    notes: &mut Vec<Note>,
) -> Result<(), ConfigFault>
    ensures adds { IfOk result (λ _. GainsNotes notes.old notes.new (notes_on_absent texts.now modes.now)) }
    ensures fails { IfErr result (λ e. e ≡ NoMemory) }
{
    for mode in modes {
        if !has_text(texts, &mode.text) {
            let note = absent(alloc, mode.name)?;
            notes.push(note)?;
        }
    }
    Ok(())
}

/// The notes on the sections of the machine text, as they are written: on each that is skipped,
/// and on the absent modes where they are listed.
pub fn machine_notes(
    alloc: Global,
    sections: &[(Key, Tree)],
    modes: &[ListedMode<'_>],
    texts: &[NamedText<'_>],
) -> Result<Vec<Note>, ConfigFault>
    ensures are { IfOk result (λ notes. AreMachineNotes texts.now modes.now sections.now notes) }
    ensures fails { IfErr result (λ e. e ≡ NoMemory) }
{
    let mut notes = Vec::new(alloc);
    for section in sections {
        let name = section.0.text.as_slice();
        if is_skipped(name) {
            let note = skipped_note(alloc, MACHINE_NAME, section)?;
            notes.push(note)?;
        } else if name == MODES_NAME {
            add_absent(alloc, modes, texts, &mut notes)?;
        }
    }
    Ok(notes)
}

/// The notes on the skipped sections of the text of a mode, as they are written.
pub fn mode_notes(
    alloc: Global,
    text: &[u8],
    sections: &[(Key, Tree)],
) -> Result<Vec<Note>, ConfigFault>
    ensures are { IfOk result (λ notes. AreModeNotes text.now sections.now notes) }
    ensures fails { IfErr result (λ e. e ≡ NoMemory) }
{
    let mut notes = Vec::new(alloc);
    for section in sections {
        if is_skipped(&section.0.text) {
            let note = skipped_note(alloc, text, section)?;
            notes.push(note)?;
        }
    }
    Ok(notes)
}

/// Adds the notes on the texts that are neither the machine text nor that of a listed mode, in the
/// order of the bundle.
pub fn add_unlisted(
    alloc: Global,
    modes: &[ListedMode<'_>],
    texts: &[NamedText<'_>],
    notes: &mut Vec<Note>,
) -> Result<(), ConfigFault>
    ensures adds { IfOk result (λ _. GainsNotes notes.old notes.new (notes_on_unlisted texts.now modes.now)) }
    ensures fails { IfErr result (λ e. e ≡ NoMemory) }
{
    for text in texts {
        if text.name != MACHINE_NAME && mode_of(modes, text.name).is_none() {
            let note = unlisted_note(alloc, *text)?;
            notes.push(note)?;
        }
    }
    Ok(())
}
