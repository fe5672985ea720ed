//! A bundle of texts.

ghost use Rattle.std.specs.Prelude.{◌≡◌, ◌≢◌, ℕ, List, map, IfOk, IfErr};
ghost use Rattle.mpf_config.specs.Reading.{rows_at, mode_names_at};
ghost use Rattle.mpf_config.specs.Rows.{Rows};
ghost use Rattle.mpf_config.specs.RowsOf.{Sizes, within_limits, IsRowsOf, IsAbove, AreModesOf, IsTextOver};
ghost use Rattle.config_faults.specs.declared.fault.ConfigFault.TheVariants.{NoMemory};
ghost use Rattle.mpf_config.specs.View.{rows_view};
ghost use Rattle.mpf_config.specs.CodeViews.{names_only_view};
ghost use Rattle.mpf_config.specs.Gives.{GivesModes, GivesMachine, GivesConfig, GivesModeNames, AreEntriesDistinct};
ghost use Rattle.mpf_config.specs.Gives.{machine_in_texts, modes_of_machine, AreTextsOf};

use crate::config::{Config, MachineText, Note, Section};
use crate::fault::{BundleFaultKind, ConfigFault};
use crate::listed::modes_with_texts;
use crate::listed_mode::ListedMode;
use crate::modes::{ModeRead, find_modes, take_modes};
use crate::sections::{sections, sections_in};
use crate::spot::{NONE, line_of};
use crate::texts::{MACHINE_NAME, NamedText, machine_text, texts};
use crate::unread::{add_unlisted, machine_notes};
use crate::version::tree_of;
use mpf_sections::listed_modes as modes_in;
use mpf_tables::TextKind;
use setting_values::values::Name;
use std::alloc::{AllocError, Global};
use yaml_subset::keys::{KeyHashing, no_keys};

/// The most bytes of a bundle: 8 MiB.
const MAX_BUNDLE_LEN: usize = 8_388_608;

/// The sections of the machine text, with the notes on it.
#[derive(Drop)]
pub struct MachineRead {
    pub sections: Vec<Section>,
    pub notes: Vec<Note>,
}

// The machine text of a bundle of these texts; or the first fault in it.
#[tactic(auto, unfolding(crate::specs::Reading::machine_read_at, crate::specs::Reading::text_rows_at))]
fn read_machine(
    alloc: Global,
    hashing: KeyHashing,
    texts: &[NamedText<'_>],
) -> Result<MachineRead, ConfigFault>
    ensures { GivesMachine result (machine_in_texts texts.now) }
{
    let text = machine_text(alloc, texts)?;
    let tree = tree_of(alloc, hashing, MACHINE_NAME, text)?;
    let entries = sections_in(alloc, MACHINE_NAME, &tree)?;
    let sections = sections(alloc, TextKind::Machine, MACHINE_NAME, entries.pairs)?;
    let modes = modes_with_texts(alloc, modes_in(&sections))?;
    let notes = machine_notes(alloc, entries.pairs, &modes, texts)?;
    drop(modes);
    Ok(MachineRead { sections, notes })
}

// The modes of a machine text with these sections, which lists these modes; or the first fault. No
// two entries of the sections are the same.
fn read_modes(
    alloc: Global,
    hashing: KeyHashing,
    sections: &[Section],
    modes_listed: &[ListedMode<'_>],
    texts: &[NamedText<'_>],
) -> Result<Vec<Option<ModeRead>>, ConfigFault>
    requires { AreEntriesDistinct sections.now }
    ensures { GivesModes result (modes_of_machine sections.now modes_listed.now texts.now) }
{
    let mut known_keys = no_keys(alloc, hashing);
    let mode_reads = find_modes(
        alloc,
        hashing,
        sections,
        modes_listed,
        texts,
        &mut known_keys,
    )?;
    Ok(mode_reads)
}

// The rows of a bundle, or its first fault.
#[tactic(auto, unfolding(crate::specs::Reading::rows_at))]
fn read_exactly(alloc: Global, bundle: &[u8]) -> Result<Config, ConfigFault>
    ensures { GivesConfig result (rows_at bundle.now) }
{
    if bundle.len() > MAX_BUNDLE_LEN {
        let fault = line_of(NONE, 1).fault(alloc, BundleFaultKind::Limit)?;
        return Err(ConfigFault::Bundle(fault));
    }
    let texts = texts(alloc, bundle)?;
    let hashing = KeyHashing::of(bundle);
    let MachineRead {
        sections,
        mut notes,
    } = read_machine(alloc, hashing, &texts)?;
    let modes_listed = modes_with_texts(alloc, modes_in(&sections))?;
    let mode_reads = read_modes(alloc, hashing, &sections, &modes_listed, &texts)?;
    let modes = take_modes(alloc, mode_reads, &mut notes)?;
    add_unlisted(alloc, &modes_listed, &texts, &mut notes)?;
    drop(modes_listed);
    Ok(Config {
        machine: MachineText { sections },
        modes,
        notes,
        hashing,
    })
}

/// Reads a bundle: its rows, and notes on what is not read. A bundle is a list of texts, each after
/// a line `@ NAME`. Of these the machine text, `config/config.yaml`, is read, and the text
/// `modes/M/config/M.yaml` of each mode `M` that it lists. Sections that are carried out nowhere are
/// skipped with a note, a listed mode without a text is none and has a note, and so has each text
/// that is not read.
///
/// # Errors
///
/// `NoMemory`, or the first fault. Faults are looked for in this order:
///
/// - `Limit`: the bundle has more than 8 MiB.
/// - `Bundle`: the first line is not `@ NAME`; another line begins with `@` and is not `@ NAME`; or
///   there is no machine text.
/// - The faults of the machine text.
/// - The faults of the other texts, in the order of the bundle. A text with the name of an earlier
///   one is `Duplicate`, at its line 1. This is judged before anything else in it, and even if the
///   text is not read. An entry of the same section and name as one of the machine text, or of an
///   earlier mode, is `Duplicate` at its line, with its name. This is judged after anything else in
///   the text. Players have no such entries: an event may be handled in several texts.
///
/// The faults of a text are looked for in this order:
///
/// - `Version`: it does not begin with `#config_version=6`.
/// - `Yaml`: it is not in the subset of YAML, or is above its limits.
/// - The faults of its sections, entries and settings, as they are written. Those of the section
///   `modes` are: `Limit`, for more than 64 items, whatever they are; the other faults of a list of
///   names; and, name by name, `BadValue` for the name `machine`, and `Duplicate` at the line of a
///   name that is listed before. A section `mode` whose `use_wait_queue` is yes, and in which not
///   all `start_events` are `ball_ending`, or there are none, is `BadValue` with the key
///   `start_events`: at the line of that setting, or of the section if it is not written. This is
///   judged after anything else in the section.
pub fn read_bundle(alloc: Global, bundle: &[u8]) -> Result<Config, ConfigFault>
    // What is read are the rows of the bundle, with the notes.
    ensures found { IfOk result (λ config. IsRowsOf within_limits bundle.now (rows_view config)) }

    // The bundle has no other rows, however large they may be.
    ensures only { IfOk result (λ config. (sizes : Sizes) (rows : Rows) → IsRowsOf sizes bundle.now rows
        → rows ≡ rows_view config) }

    // A bundle that is refused has no rows within the limits.
    ensures refused { IfErr result (λ e. e ≢ NoMemory → (sizes : Sizes) (rows : Rows) → IsRowsOf sizes bundle.now rows
        → IsAbove sizes bundle.now rows) }

    // Which fault it is, with its text, line and key, is the first that reading in order meets.
    ensures exact { GivesConfig result (rows_at bundle.now) }
{
    read_exactly(alloc, bundle)
}

// Names as they are written.
fn texts_of(alloc: Global, names: &[Name]) -> Result<Vec<Vec<u8>>, AllocError>
    ensures { IfOk result (λ texts. AreTextsOf names.now texts) }
{
    let mut texts = Vec::with_capacity(alloc, names.len())?;
    for name in names {
        let text = Vec::from_slice(alloc, &name.text)?;
        texts.push(text)?;
    }
    Ok(texts)
}

// The names of the modes that a machine text lists, or its first fault.
#[tactic(auto, unfolding(crate::specs::Reading::mode_names_at, crate::specs::Reading::text_rows_at))]
fn names_exactly(alloc: Global, text: &[u8]) -> Result<Vec<Vec<u8>>, ConfigFault>
    ensures { GivesModeNames result (mode_names_at text.now) }
{
    let tree = tree_of(alloc, KeyHashing::of(text), MACHINE_NAME, text)?;
    let entries = sections_in(alloc, MACHINE_NAME, &tree)?;
    let sections = sections(alloc, TextKind::Machine, MACHINE_NAME, entries.pairs)?;
    let names = texts_of(alloc, modes_in(&sections))?;
    Ok(names)
}

/// The names of the modes that a machine text lists, in the order of the list. `text` is the machine
/// text itself, not a bundle.
///
/// # Errors
///
/// `NoMemory`, or the first fault of the text, as [`read_bundle`] reports it.
pub fn mode_names(alloc: Global, text: &[u8]) -> Result<Vec<Vec<u8>>, ConfigFault>
    // What is answered are the names that the text lists.
    ensures found { IfOk result (λ names. AreModesOf within_limits text.now (names_only_view names)) }

    // The text lists no others, however large it may be.
    ensures only { IfOk result (λ names. (sizes : Sizes) (others : List (List ℕ)) → AreModesOf sizes text.now others
        → others ≡ names_only_view names) }

    // A text that is refused lists no modes within the limits.
    ensures refused { IfErr result (λ e. e ≢ NoMemory → (sizes : Sizes) (names : List (List ℕ))
        → AreModesOf sizes text.now names → IsTextOver sizes text.now) }

    // Which fault it is, with its line and key, is the first that reading in order meets.
    ensures exact { GivesModeNames result (mode_names_at text.now) }
{
    names_exactly(alloc, text)
}
