//! Maps that are read by a table of fields.

ghost use Rattle.std.specs.Prelude.{◌≡◌, ◌<◌, length, IfOk, IfSome};
ghost use Rattle.std.specs.List.{list_any};
ghost use Rattle.std.specs.Str.{bytes_eq};
ghost use Rattle.yaml_subset.specs.View.{option_slice};
ghost use Rattle.setting_values.specs.Reading.{are_apart};
ghost use Rattle.setting_values.specs.KindView.{others_view};
ghost use Rattle.setting_values.specs.ValueAnswers.{GivesPlains, FillsPlains, GivesFields, GivesMaps, GivesKeyed};
ghost use Rattle.setting_values.specs.ValueAnswers.{GivesKeyedList, FindsField, AreFieldDefaults, AreFieldDefaultsBut};
ghost use Rattle.setting_values.specs.ValueAnswers.{lacking_field, put_field, overwrite_fields, read_field_row};
ghost use Rattle.setting_values.specs.ValueAnswers.{read_fields, read_maps, read_named_maps, name_of_map};
ghost use Rattle.setting_values.specs.ValueAnswers.{names_of_maps, read_keyed_row, read_keyed, read_keyed_list};

use crate::defaults::{default_plain, plain_lacks};
use crate::items::each;
use crate::kinds::{Bounds, Field, Others, Scalar};
use crate::nodes::{few_pairs, nodes, pairs};
use crate::scalars::{is_name, name_of, plain};
use crate::values::{Fields, KeyedValues, Plain};
use config_faults::{BundleFaultKind, ConfigFault, Spot, spot_of};
use std::alloc::{AllocError, Global};
use yaml_subset::tree::{Key, Tree};

// ---- rows of fields

// The place in a table of the field with this key, and the field.
fn field_of<'t>(table: &'t [Field], key: &[u8]) -> Option<(usize, &'t Field)>
    ensures found { FindsField result table.now key.now }
    ensures within { IfSome result (λ found. found.0 < length table.now) }
{
    for (at, field) in table.iter().enumerate() {
        if field.key == key {
            return Some((at, field));
        }
    }
    None
}

// A row with nothing written in it.
fn bare_row(alloc: Global, table: &[Field]) -> Result<Vec<Plain>, AllocError>
    ensures row { IfOk result (λ row. AreFieldDefaults table.now row.items) }
    ensures len { IfOk result (λ row. length row.items ≡ length table.now) }
{
    let mut row = Vec::with_capacity(alloc, table.len())?;
    for field in table {
        row.push(default_plain(field.absent))?;
    }
    Ok(row)
}

impl Others {
    fn is_ignored(self) -> bool
        ensures { result ≡ others_view self }
    {
        match self {
            Others::Refused => false,
            Others::Ignored => true,
        }
    }
}

// Puts the value of a pair into a row. The fault is UnknownSetting or BadValue.
fn put(
    alloc: Global,
    spot: Spot<'_>,
    table: &[Field],
    others: Others,
    tree: &Tree,
    row: &mut [Plain],
) -> Result<(), ConfigFault>
    requires { length row.old ≡ length table.now }
    ensures { FillsPlains result row.new (put_field spot.entry table.now others tree.now row.old) }
{
    let Some((at, field)) = field_of(table, spot.key) else {
        if others.is_ignored() {
            return Ok(());
        }
        return Err(ConfigFault::Bundle(spot.fault(alloc, BundleFaultKind::UnknownSetting)?));
    };
    row[at] = plain(alloc, spot, field.kind, tree)?;
    Ok(())
}

// Overwrites a row by pairs, one after the other; or the first fault.
fn overwrite(
    alloc: Global,
    text: &[u8],
    table: &[Field],
    others: Others,
    pairs: &[(Key, Tree)],
    row: &mut [Plain],
) -> Result<(), ConfigFault>
    requires { length row.old ≡ length table.now }
    ensures { FillsPlains result row.new (overwrite_fields text.now table.now others pairs.now row.old) }
{
    for pair in pairs {
        put(alloc, spot_of(text, &pair.0), table, others, &pair.1, row)?;
    }
    Ok(())
}

// The key of the first field that has to be written and is not.
fn first_lacking(table: &[Field], row: &[Plain]) -> Option<&'static [u8]>
    requires { length row.now ≡ length table.now }
    ensures { option_slice (λ key. key) result ≡ lacking_field table.now row.now }
{
    for (at, field) in table.iter().enumerate() {
        if plain_lacks(field.absent, &row[at]) {
            return Some(field.key);
        }
    }
    None
}

// The row of the pairs of a map; or the first fault. What is missing is missing at the spot.
#[tactic(auto, unfolding(crate::specs::Reading::row_at))]
fn fields_row(
    alloc: Global,
    spot: Spot<'_>,
    table: &[Field],
    others: Others,
    pairs: &[(Key, Tree)],
) -> Result<Vec<Plain>, ConfigFault>
    ensures { GivesPlains result (read_field_row spot.entry table.now others pairs.now) }
{
    let mut row = bare_row(alloc, table)?;
    overwrite(alloc, spot.text, table, others, pairs, &mut row)?;
    if let Some(key) = first_lacking(table, &row) {
        let missing = Spot { key, ..spot };
        return Err(ConfigFault::Bundle(missing.fault(alloc, BundleFaultKind::Missing)?));
    }
    Ok(row)
}

// ---- maps in lists

// A map in a list; or the first fault.
#[tactic(auto, unfolding(crate::specs::Reading::fields_at))]
fn fields(
    alloc: Global,
    spot: Spot<'_>,
    table: &[Field],
    others: Others,
    tree: &Tree,
) -> Result<Fields, ConfigFault>
    ensures { GivesFields result (read_fields spot.entry table.now others tree.now) }
{
    let below = pairs(alloc, spot, tree)?;
    let line = tree.line();
    let values = fields_row(alloc, Spot { line, ..spot }, table, others, below.pairs)?;
    Ok(Fields { line, values })
}

/// The maps in a list; or the first fault.
pub fn maps(
    alloc: Global,
    spot: Spot<'_>,
    table: &[Field],
    others: Others,
    bounds: Bounds,
    tree: &Tree,
) -> Result<Vec<Fields>, ConfigFault>
    ensures { GivesMaps result (read_maps spot.entry table.now others bounds tree.now) }
{
    let list_nodes = nodes(alloc, spot, bounds, tree)?;
    each(
        alloc,
        list_nodes.nodes,
        |node|
            ensures { GivesFields result (read_fields spot.entry table.entry.now others node.now) }
        { fields(alloc, spot, table, others, node) },
    )
}

// ---- maps with their own names

// The name that the first value of a map is; the empty text if it is none.
fn own_name(map: &Fields) -> &[u8]
    ensures { result.now ≡ name_of_map map.now }
{
    match map.values.first() {
        Some(Plain::Name(name)) => &name.text,
        Some(Plain::DefaultName(name)) => name,
        _ => b"",
    }
}

// Whether one of these maps has the same name as another one.
fn has_namesake(maps: &[Fields], other: &Fields) -> bool
    ensures { result ≡ list_any (λ map. bytes_eq (name_of_map other.now) (name_of_map map)) maps.now }
{
    let name = own_name(other);
    maps.iter().any(
        |map|
            ensures { result ≡ bytes_eq name.entry.now (name_of_map map.now) }
        { name == own_name(map) },
    )
}

// Whether no two maps have the same name.
fn are_apart(maps: &[Fields]) -> bool
    ensures { result ≡ are_apart (names_of_maps maps.now) }
{
    for (at, map) in maps.iter().enumerate() {
        if has_namesake(&maps[at + 1..], map) {
            return false;
        }
    }
    true
}

/// The maps in a list, each with a name of its own; or the first fault. The names are compared when
/// all maps are read: two that are the same are BadValue at the spot.
#[tactic(auto, unfolding(crate::specs::Reading::named_maps_at))]
pub fn named_maps(
    alloc: Global,
    spot: Spot<'_>,
    table: &[Field],
    others: Others,
    bounds: Bounds,
    tree: &Tree,
) -> Result<Vec<Fields>, ConfigFault>
    ensures { GivesMaps result (read_named_maps spot.entry table.now others bounds tree.now) }
{
    let maps = maps(alloc, spot, table, others, bounds, tree)?;
    if !are_apart(&maps) {
        return Err(ConfigFault::Bundle(spot.fault(alloc, BundleFaultKind::BadValue)?));
    }
    Ok(maps)
}

// ---- maps of names

// A row with one value in it, if the table has that place.
fn short_row(
    alloc: Global,
    table: &[Field],
    at: usize,
    value: Plain,
) -> Result<Vec<Plain>, AllocError>
    ensures { IfOk result (λ row. AreFieldDefaultsBut at value table.now row.items) }
{
    let mut row = bare_row(alloc, table)?;
    if at >= row.len() {
        return Ok(row);
    }
    row[at] = value;
    Ok(row)
}

// The values that belong to a name: one text alone, or a map; or the first fault.
fn keyed_row(
    alloc: Global,
    spot: Spot<'_>,
    table: &[Field],
    at: usize,
    short: Scalar,
    tree: &Tree,
) -> Result<Vec<Plain>, ConfigFault>
    ensures { GivesPlains result (read_keyed_row spot.entry table.now at short tree.now) }
{
    match tree.as_scalar() {
        None => {
            let below = pairs(alloc, spot, tree)?;
            fields_row(alloc, spot, table, Others::Refused, below.pairs)
        }
        Some(_) => {
            let value = plain(alloc, spot, short, tree)?;
            let row = short_row(alloc, table, at, value)?;
            Ok(row)
        }
    }
}

// A name and the values that belong to it, of the text of this name; or the first fault.
#[tactic(auto, unfolding(crate::specs::Reading::keyed_at))]
fn keyed_values(
    alloc: Global,
    text: &[u8],
    table: &[Field],
    at: usize,
    short: Scalar,
    pair: &(Key, Tree),
) -> Result<KeyedValues, ConfigFault>
    ensures { GivesKeyed result (read_keyed text.now table.now at short pair.now) }
{
    let key = &pair.0;
    let spot = spot_of(text, key);
    if !is_name(&key.text) {
        return Err(ConfigFault::Bundle(spot.fault(alloc, BundleFaultKind::BadValue)?));
    }
    let values = keyed_row(alloc, spot, table, at, short, &pair.1)?;
    let name = name_of(alloc, key.line, &key.text)?;
    Ok(KeyedValues { name, values })
}

/// The names of a map with the values that belong to each; or the first fault, which is `Limit` at
/// the spot if the map has more than 1,024 pairs.
#[tactic(auto, unfolding(crate::specs::Reading::keyed_list_at))]
pub fn keyed_list(
    alloc: Global,
    spot: Spot<'_>,
    table: &[Field],
    at: usize,
    short: Scalar,
    tree: &Tree,
) -> Result<Vec<KeyedValues>, ConfigFault>
    ensures { GivesKeyedList result (read_keyed_list spot.entry table.now at short tree.now) }
{
    let below = few_pairs(alloc, spot, tree)?;
    let text = spot.text;
    each(
        alloc,
        below.pairs,
        |pair|
            ensures { GivesKeyed result (read_keyed text.entry.now table.entry.now at short pair.now) }
        { keyed_values(alloc, text, table, at, short, pair) },
    )
}
