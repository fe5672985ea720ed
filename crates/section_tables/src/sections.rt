//! Sections that are read by a table or as a list: entries, one entry, or names.

ghost use Rattle.std.specs.Prelude.{◌≡◌, ◌≢◌, ℕ, ◌<◌, List, [], IfOk, IfErr};
ghost use Rattle.std.specs.Rc.{rc_value};
ghost use Rattle.section_tables.specs.Rows.{Entry as Row};
ghost use Rattle.setting_values.specs.Values.{WrittenName};
ghost use Rattle.setting_values.specs.View.{names_view};
ghost use Rattle.section_tables.specs.View.{entry_view, entries_view};
ghost use Rattle.section_tables.specs.Gives.{IsEntryOf, AreEntriesOf, AreNamesOf, read_entry, read_entries, read_names};
ghost use Rattle.section_tables.specs.Gives.{GivesEntry, GivesEntries};
ghost use Rattle.setting_values.specs.Gives.{GivesNames};
ghost use Rattle.section_tables.specs.TableAnswers.{GivesRow, read_row, places_of_pairs, read_other_entry};

use crate::bare::{Bare, bare_of};
use crate::rows::{Entry, EntryRow};
use crate::settings::row_of;
use crate::table::{BarredNames, Setting};
use config_faults::{BundleFaultKind, ConfigFault, Spot, spot_of};
use setting_values::kinds::Bounds;
use setting_values::values::Name;
use setting_values::{each, is_name, name_of, names, pairs, word_in};
use std::alloc::Global;
use std::rc::Rc;
use yaml_subset::tree::{Key, Tree};

// A row of its own, of the pairs of an entry; or the first fault.
fn own_row(
    alloc: Global,
    spot: Spot<'_>,
    bare: &Bare,
    pairs: &[(Key, Tree)],
) -> Result<Rc<EntryRow>, ConfigFault>
    ensures order { IfOk result (λ row. (rc_value row).order.items ≡ places_of_pairs bare.now.table.now pairs.now) }
    ensures row { GivesRow rc_value result (read_row spot.entry bare.now.table.now pairs.now) }
{
    let row = row_of(alloc, spot, bare.table, &bare.values, pairs)?;
    Ok(Rc::new(alloc, row)?)
}

// The row of an entry in which nothing is written. The fault is Missing at the spot.
#[tactic(auto, unfolding(setting_values::specs::Reading::row_at))]
fn shared_row(alloc: Global, spot: Spot<'_>, bare: &Bare) -> Result<Rc<EntryRow>, ConfigFault>
    ensures order { IfOk result (λ row. (rc_value row).order.items ≡ []) }
    ensures row { GivesRow rc_value result (read_row spot.entry bare.now.table.now []) }
{
    match bare.lacks {
        None => Ok(bare.row.clone()?),
        Some(key) => {
            let missing = Spot { key, ..spot };
            Err(ConfigFault::Bundle(missing.fault(alloc, BundleFaultKind::Missing)?))
        }
    }
}

// The row of the pairs of an entry; or the first fault.
fn row(
    alloc: Global,
    spot: Spot<'_>,
    bare: &Bare,
    pairs: &[(Key, Tree)],
) -> Result<Rc<EntryRow>, ConfigFault>
    ensures order { IfOk result (λ row. (rc_value row).order.items ≡ places_of_pairs bare.now.table.now pairs.now) }
    ensures row { GivesRow rc_value result (read_row spot.entry bare.now.table.now pairs.now) }
{
    if pairs.is_empty() {
        return shared_row(alloc, spot, bare);
    }
    own_row(alloc, spot, bare, pairs)
}

// An entry of a section with this table; or the first fault.
#[tactic(auto, unfolding(crate::specs::Reading::entry_at))]
fn read_entry(
    alloc: Global,
    bare: &Bare,
    text: &[u8],
    pair: &(Key, Tree),
) -> Result<Entry, ConfigFault>
    ensures { GivesEntry result (read_entry bare.now.table.now text.now pair.now) }
{
    let key = &pair.0;
    let spot = spot_of(text, key);
    if !is_name(&key.text) {
        return Err(ConfigFault::Bundle(spot.fault(alloc, BundleFaultKind::BadValue)?));
    }
    let below = pairs(alloc, spot, &pair.1)?;
    let row = row(alloc, spot, bare, below.pairs)?;
    let name = name_of(alloc, key.line, &key.text)?;
    Ok(Entry { name, row })
}

// The same, under another name than these. The fault is BadValue, or the first one of the entry.
#[tactic(auto, unfolding(crate::specs::Reading::other_entry_at))]
fn read_other_entry(
    alloc: Global,
    barred_names: BarredNames,
    bare: &Bare,
    text: &[u8],
    pair: &(Key, Tree),
) -> Result<Entry, ConfigFault>
    ensures { GivesEntry result (read_other_entry barred_names bare.now.table.now text.now pair.now) }
{
    let key = &pair.0;
    match word_in(barred_names.names, &key.text) {
        None => read_entry(alloc, bare, text, pair),
        Some(_) => {
            let fault = spot_of(text, key).fault(alloc, BundleFaultKind::BadValue)?;
            Err(ConfigFault::Bundle(fault))
        }
    }
}

// The entries of a section with this table, none of which has one of these names; or the first
// fault.
#[tactic(auto, unfolding(crate::specs::Reading::entries_at))]
fn read_entries(
    alloc: Global,
    barred_names: BarredNames,
    bare: &Bare,
    text: &[u8],
    pair: &(Key, Tree),
) -> Result<Vec<Entry>, ConfigFault>
    ensures { GivesEntries result (read_entries barred_names bare.now.table.now text.now pair.now) }
{
    let below = pairs(alloc, spot_of(text, &pair.0), &pair.1)?;
    each(
        alloc,
        below.pairs,
        |pair|
            ensures { GivesEntry result (read_other_entry barred_names bare.entry.now.table.now text.entry.now
                pair.now) }
        { read_other_entry(alloc, barred_names, bare, text, pair) },
    )
}

// The names that a section lists, at most so many; or the first fault.
#[tactic(auto, unfolding(crate::specs::Reading::names_at))]
fn read_names(
    alloc: Global,
    most: usize,
    text: &[u8],
    pair: &(Key, Tree),
) -> Result<Vec<Name>, ConfigFault>
    ensures { GivesNames result (read_names most text.now pair.now) }
{
    names(
        alloc,
        spot_of(text, &pair.0),
        most,
        Bounds::AtLeast(0),
        &pair.1,
    )
}

/// The entry that a pair is by this table, in the text of this name: one of the entries of a
/// section, or a section that is one entry itself.
///
/// # Errors
///
/// `NoMemory`, or the first fault. They come in this order: `BadValue` if its key is no name or its
/// value no mapping; the faults of its settings, as they are written; `Missing` with the first key
/// of the table that is required and not written.
pub fn entry(
    alloc: Global,
    table: &[Setting],
    text: &[u8],
    pair: &(Key, Tree),
) -> Result<Entry, ConfigFault>
    // What is answered is the entry.
    ensures found { IfOk result (λ x. IsEntryOf 1024 table.now pair.now (entry_view x)) }

    // The pair is no other, however many items its lists may have.
    ensures only { IfOk result (λ x. (longest : ℕ) (e : Row) → IsEntryOf longest table.now pair.now e
        → e ≡ entry_view x) }

    // A pair that is refused, but for want of memory, is an entry only if a list is too long.
    ensures refused { IfErr result (λ e. e ≢ ConfigFault.NoMemory → (longest : ℕ) (row : Row)
        → IsEntryOf longest table.now pair.now row → 1024 < longest) }

    // Which fault it is, with its line and key, is what reading from the first setting gives.
    ensures exact { GivesEntry result (read_entry table.now text.now pair.now) }
{
    let bare = bare_of(alloc, table)?;
    read_entry(alloc, &bare, text, pair)
}

/// The entries of a section by this table, in the text of this name. None of them may have one of
/// the barred names.
///
/// # Errors
///
/// `NoMemory`; `BadValue` at the section if it is no mapping; or the first fault of an entry, which
/// is `BadValue` if its name is barred, and else as [`entry`] reports it.
pub fn entries(
    alloc: Global,
    barred_names: BarredNames,
    table: &[Setting],
    text: &[u8],
    pair: &(Key, Tree),
) -> Result<Vec<Entry>, ConfigFault>
    // What is answered are the entries of the section.
    ensures found { IfOk result (λ xs. AreEntriesOf 1024 barred_names table.now pair.now (entries_view xs)) }

    // The section has no others, however many items its lists may have.
    ensures only { IfOk result (λ xs. (longest : ℕ) (es : List Row)
        → AreEntriesOf longest barred_names table.now pair.now es → es ≡ entries_view xs) }

    // A section that is refused, but for want of memory, has entries only if a list is too long.
    ensures refused { IfErr result (λ e. e ≢ ConfigFault.NoMemory → (longest : ℕ) (es : List Row)
        → AreEntriesOf longest barred_names table.now pair.now es → 1024 < longest) }

    // Which fault it is, with its line and key, is what reading from the first entry gives.
    ensures exact { GivesEntries result (read_entries barred_names table.now text.now pair.now) }
{
    let bare = bare_of(alloc, table)?;
    read_entries(alloc, barred_names, &bare, text, pair)
}

/// The names that a section lists, at most so many, in the text of this name, each with the line
/// where it is written.
///
/// # Errors
///
/// `NoMemory`, or the first fault, which is at the section: `Limit` if it lists more items than
/// that, whatever they are; `BadValue` if its value is no list, or an item is no name.
pub fn name_list(
    alloc: Global,
    most: usize,
    text: &[u8],
    pair: &(Key, Tree),
) -> Result<Vec<Name>, ConfigFault>
    // What is answered are the names of the section.
    ensures found { IfOk result (λ xs. AreNamesOf most pair.now (names_view xs)) }

    // The section lists no others, however many items it may have.
    ensures only { IfOk result (λ xs. (longest : ℕ) (ws : List WrittenName) → AreNamesOf longest pair.now ws
        → ws ≡ names_view xs) }

    // A section that is refused, but for want of memory, lists names only if the list is too long.
    ensures refused { IfErr result (λ e. e ≢ ConfigFault.NoMemory → (longest : ℕ) (ws : List WrittenName)
        → AreNamesOf longest pair.now ws → most < longest) }

    // Which fault it is is what reading the list gives.
    ensures exact { GivesNames result (read_names most text.now pair.now) }
{
    read_names(alloc, most, text, pair)
}
