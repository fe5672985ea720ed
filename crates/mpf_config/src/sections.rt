//! The sections of a text.

ghost use Rattle.std.specs.Prelude.{◌≡◌, []};
ghost use Rattle.yaml_subset.specs.Keys.{copies_view};
ghost use Rattle.yaml_subset.specs.View.{pair_view};
ghost use Rattle.setting_values.specs.View.{pairs_view};
ghost use Rattle.config_faults.specs.Faults.{spot_view};
ghost use Rattle.mpf_config.specs.Reading.{has_right_starts, keeps_to_ball_end, line_of_key, starts_spot};
ghost use Rattle.mpf_sections.specs.View.{content_view, mode_settings_view};
ghost use Rattle.mpf_config.specs.Gives.{Passes, GivesPairs, GivesNames, GivesContent, GivesSection, GivesSections};
ghost use Rattle.mpf_config.specs.Gives.{pairs_of_tree, modes_all_new, modes_of_entry, content_of_entry};
ghost use Rattle.mpf_config.specs.Gives.{section_of_entry, sections_of_entries};

use crate::config::{Content, Section};
use crate::fault::{BundleFaultKind, ConfigFault};
use crate::spot::line_of;
use crate::unread::is_skipped;
use config_faults::{Spot, spot_of};
use mpf_sections::{ModeSettings, as_mode_settings};
use mpf_tables::tables::MODE_NAME;
use mpf_tables::{TextKind, shape_of};
use section_tables::table::Shape;
use section_tables::{entries, entry as read_entry, name_list, players};
use setting_values::MapPairs;
use setting_values::values::Name;
use std::alloc::Global;
use std::borrow::CowSlice;
use yaml_subset::keys::{KeyHashing, KeySet, no_keys, take_key};
use yaml_subset::tree::{Key, Tree};

/// The most modes of a machine.
const MAX_MODES: usize = 64;

/// The name that a mode cannot have, for the machine has it.
const MACHINE_OWNER: &[u8] = b"machine";

/// The setting that says at what events a mode starts.
const START_EVENTS: &[u8] = b"start_events";

// Compares the names of modes. The fault is BadValue at the list if one is the machine's name, and
// Duplicate at the later of two modes of one name.
fn compare_modes(alloc: Global, spot: Spot<'_>, modes: &[Name]) -> Result<(), ConfigFault>
    ensures { Passes result (modes_all_new spot.entry modes.now) }
{
    // They are few, so it does not matter which hashes they have.
    let mut names = no_keys(alloc, KeyHashing::of(spot.text));
    compare_names(alloc, &mut names, spot, modes)
}

// The same, with a set that takes the names.
fn compare_names<'a>(
    alloc: Global,
    names: &mut KeySet<'a>,
    spot: Spot<'_>,
    modes: &'a [Name],
) -> Result<(), ConfigFault>
    requires { copies_view names.old ≡ [] }
    ensures { Passes result (modes_all_new spot.entry modes.now) }
{
    for mode in modes {
        let name = mode.text.as_slice();
        if name == MACHINE_OWNER {
            return Err(ConfigFault::Bundle(spot.fault(alloc, BundleFaultKind::BadValue)?));
        }
        let fresh = take_key(names, CowSlice::Borrowed(name))?;
        if !fresh {
            let at = Spot {
                text: spot.text,
                line: mode.line,
                key: name,
            };
            return Err(ConfigFault::Bundle(at.fault(alloc, BundleFaultKind::Duplicate)?));
        }
    }
    Ok(())
}

// The modes that a section lists; or the first fault: those of the list, Limit above 64 items first
// of all, and then those of the names.
#[tactic(auto, unfolding(crate::specs::Reading::modes_at))]
fn modes(alloc: Global, text: &[u8], entry: &(Key, Tree)) -> Result<Vec<Name>, ConfigFault>
    ensures { GivesNames result (modes_of_entry text.now entry.now) }
{
    let names = name_list(alloc, MAX_MODES, text, entry)?;
    compare_modes(alloc, spot_of(text, &entry.0), &names)?;
    Ok(names)
}

// What stands in a section of this shape; or the first fault in it.
fn content(
    alloc: Global,
    shape: Shape,
    text: &[u8],
    entry: &(Key, Tree),
) -> Result<Content, ConfigFault>
    ensures { GivesContent result (content_of_entry text.now entry.now shape) }
{
    match shape {
        Shape::Entries(barred, table) => {
            let rows = entries(alloc, barred, table, text, entry)?;
            Ok(Content::Entries(rows))
        }
        Shape::Players(kinds) => {
            let rows = players(alloc, kinds, text, entry)?;
            Ok(Content::Players(rows))
        }
        Shape::Entry(table) => {
            let row = read_entry(alloc, table, text, entry)?;
            Ok(Content::Entry(row))
        }
        Shape::Names => {
            let names = modes(alloc, text, entry)?;
            Ok(Content::Names(names))
        }
    }
}

// Whether the content of a section of this name keeps to this: a mode that holds the end of the ball
// starts at that alone.
#[tactic(auto, unfolding(crate::specs::Reading::keeps_to_ball_end))]
fn keeps_to_ball_end(section: &[u8], content: &Content) -> bool
    ensures { result ≡ keeps_to_ball_end section.now (content_view content.now) }
{
    match content {
        Content::Entry(entry) if section == MODE_NAME => {
            has_right_starts(as_mode_settings(entry))
        }
        _ => true,
    }
}

// Whether a mode with these settings starts at the end of the ball alone, if it holds that.
fn has_right_starts(settings: ModeSettings<'_>) -> bool
    ensures { result ≡ has_right_starts (mode_settings_view settings.entry) }
{
    !settings.holds_ball_end || settings.starts_at_ball_end()
}

// The line of the first pair with this key; another if there is none.
fn line_of_key(key: &[u8], otherwise: u32, pairs: &[(Key, Tree)]) -> u32
    ensures { result ≡ line_of_key key.now otherwise (pairs_view pairs.now) }
{
    for pair in pairs {
        if pair.0.text.as_slice() == key {
            return pair.0.line;
        }
    }
    otherwise
}

// Where a section says at what events a mode starts; at its own line if it does not say.
fn starts_spot<'a>(text: &'a [u8], entry: &(Key, Tree)) -> Spot<'a>
    ensures { spot_view result ≡ starts_spot text.now (pair_view entry.now) }
{
    let line = entry.0.line;
    let line = match entry.1.as_map() {
        Some(pairs) => line_of_key(START_EVENTS, line, pairs),
        None => line,
    };
    Spot {
        text,
        line,
        key: START_EVENTS,
    }
}

// The section of a key in a text of this kind. The fault is UnknownSection, or the first one in it.
#[tactic(auto, unfolding(crate::specs::Reading::section_at))]
fn section(
    alloc: Global,
    kind: TextKind,
    text: &[u8],
    entry: &(Key, Tree),
) -> Result<Section, ConfigFault>
    ensures { GivesSection result (section_of_entry kind text.now entry.now) }
{
    let Some(shape) = shape_of(kind, &entry.0.text) else {
        let fault = spot_of(text, &entry.0).fault(alloc, BundleFaultKind::UnknownSection)?;
        return Err(ConfigFault::Bundle(fault));
    };
    let content = content(alloc, shape, text, entry)?;
    if !keeps_to_ball_end(&entry.0.text, &content) {
        let fault = starts_spot(text, entry).fault(alloc, BundleFaultKind::BadValue)?;
        return Err(ConfigFault::Bundle(fault));
    }
    let name = Vec::from_slice(alloc, &entry.0.text)?;
    Ok(Section { name, content })
}

/// The sections that a tree of the text of this name has. The fault is BadValue if it is no mapping.
#[tactic(auto, unfolding(crate::specs::Reading::sections_in))]
pub fn sections_in<'a, 't: 'a>(
    alloc: Global,
    text: &[u8],
    tree: &'a Tree<'t>,
) -> Result<MapPairs<'a, 't>, ConfigFault>
    ensures { GivesPairs result (pairs_of_tree text.now tree.now) }
{
    let Some(pairs) = tree.as_map() else {
        let fault = line_of(text, tree.line()).fault(alloc, BundleFaultKind::BadValue)?;
        return Err(ConfigFault::Bundle(fault));
    };
    Ok(MapPairs { pairs })
}

/// The rows of sections of a text of this kind and name, as written, without those that are
/// skipped; or the first fault in them.
pub fn sections(
    alloc: Global,
    kind: TextKind,
    text: &[u8],
    entries: &[(Key, Tree)],
) -> Result<Vec<Section>, ConfigFault>
    ensures { GivesSections result (sections_of_entries kind text.now entries.now) }
{
    let mut sections = Vec::new(alloc);
    for entry in entries {
        if is_skipped(&entry.0.text) {
            continue;
        }
        let section = section(alloc, kind, text, entry)?;
        sections.push(section)?;
    }
    Ok(sections)
}
