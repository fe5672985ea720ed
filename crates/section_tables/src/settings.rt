//! The settings of an entry, read by the table of its section.

ghost use Rattle.std.specs.Prelude.{◌≡◌, ◌<◌, List, [], ◌∷◌, length, None, IfOk, IfSome, OnOk};
ghost use Rattle.std.specs.Rc.{rc_value};
ghost use Rattle.setting_values.specs.declared.values.Value.{Value};
ghost use Rattle.std.specs.List.{list_any};
ghost use Rattle.std.specs.Str.{bytes_eq};
ghost use Rattle.yaml_subset.specs.View.{option_slice};
ghost use Rattle.section_tables.specs.Keys.{is_ignored};
ghost use Rattle.setting_values.specs.Values.{written_at, handled_at};
ghost use Rattle.section_tables.specs.Tables.{value_default, value_lacks, lacks_if};
ghost use Rattle.section_tables.specs.TableView.{without_view};
ghost use Rattle.setting_values.specs.View.{names_view, handlers_view, value_view};
ghost use Rattle.section_tables.specs.View.{value_option_view, with_written, row_values};
ghost use Rattle.section_tables.specs.TableAnswers.{GivesRow, WritesValues, FindsSetting, AreSettingDefaults};
ghost use Rattle.section_tables.specs.TableAnswers.{lacking_setting, put_setting, overwrite_settings, read_row};
ghost use Rattle.section_tables.specs.TableAnswers.{GainsPlaces, place_of_key, places_of_pairs};

use crate::rows::EntryRow;
use crate::table::{Setting, Without};
use config_faults::{BundleFaultKind, ConfigFault, Spot, spot_of};
use setting_values::values::{Handler, Name, NameText, Value};
use setting_values::{default_plain, plain_lacks, value};
use std::alloc::{AllocError, Global};
use std::rc::Rc;
use yaml_subset::tree::{Key, Tree};

// ---- keys

/// The settings that every entry takes, and at whose values nothing looks if the section's
/// table does not have them.
const IGNORED_SETTINGS: [&[u8]; 11] = [
    b"number",
    b"tags",
    b"label",
    b"debug",
    b"platform",
    b"platform_settings",
    b"console_log",
    b"file_log",
    b"x",
    b"y",
    b"z",
];

/// Whether a name is one of these.
pub fn is_one_of(names: &[&[u8]], name: &[u8]) -> bool
    ensures { result ≡ list_any (λ n. bytes_eq n.now name.now) names.now }
{
    names.iter().any(|n| *n == name)
}

#[tactic(auto, unfolding(crate::specs::Keys::is_ignored))]
fn is_ignored(key: &[u8]) -> bool
    ensures { result ≡ is_ignored key.now }
{
    is_one_of(&IGNORED_SETTINGS, key)
}

// The place in a table of the setting with this key, and the setting.
fn setting_of<'t>(table: &'t [Setting], key: &[u8]) -> Option<(usize, &'t Setting)>
    ensures found { FindsSetting result table.now key.now }
    ensures within { IfSome result (λ found. found.0 < length table.now) }
{
    for (at, setting) in table.iter().enumerate() {
        if setting.key == key {
            return Some((at, setting));
        }
    }
    None
}

// ---- what holds if nothing is written

// This name alone.
fn default_name(alloc: Global, text: &[u8]) -> Result<Vec<Name>, AllocError>
    ensures { IfOk result (λ xs. names_view xs ≡ written_at 0 text.now ∷ []) }
{
    let text = NameText::from_slice(alloc, text)?;
    let mut names = Vec::with_capacity(alloc, 1)?;
    names.push(Name { line: 0, text })?;
    Ok(names)
}

// The event of this name, handled always.
fn default_event(alloc: Global, name: &[u8]) -> Result<Vec<Handler>, AllocError>
    ensures { IfOk result (λ xs. handlers_view xs ≡ handled_at 0 (record { name = name.now; condition = None }) ∷ []) }
{
    let name = NameText::from_slice(alloc, name)?;
    let handler = Handler {
        line: 0,
        name,
        condition: None,
    };
    let mut handlers = Vec::with_capacity(alloc, 1)?;
    handlers.push(handler)?;
    Ok(handlers)
}

// What holds if a setting is not written.
fn default_value(alloc: Global, without: Without) -> Result<Value, AllocError>
    ensures { IfOk result (λ value. value_view value ≡ value_default (without_view without)) }
{
    match without {
        Without::One(absent) => Ok(Value::One(default_plain(absent))),
        Without::NoNames => Ok(Value::Names(Vec::new(alloc))),
        Without::Name(text) => {
            let names = default_name(alloc, text)?;
            Ok(Value::Names(names))
        }
        Without::NoPosts => Ok(Value::Posts(Vec::new(alloc))),
        Without::NoEvents => Ok(Value::Events(Vec::new(alloc))),
        Without::Event(name) => {
            let handlers = default_event(alloc, name)?;
            Ok(Value::Events(handlers))
        }
        Without::NoMaps => Ok(Value::Maps(Vec::new(alloc))),
    }
}

/// The values of a row in which nothing is written.
pub fn bare_row(alloc: Global, table: &[Setting]) -> Result<Vec<Value>, AllocError>
    ensures row { IfOk result (λ row. AreSettingDefaults table.now row.items) }
    ensures len { IfOk result (λ row. length row.items ≡ length table.now) }
{
    let mut row = Vec::with_capacity(alloc, table.len())?;
    for setting in table {
        let value = default_value(alloc, setting.without)?;
        row.push(value)?;
    }
    Ok(row)
}

// Whether nothing is written that has to be.
fn lacks(without: Without, value: &Value) -> bool
    ensures { result ≡ value_lacks (without_view without) (value_view value.now) }
{
    match (without, value) {
        (Without::One(absent), Value::One(value)) => plain_lacks(absent, value),
        _ => false,
    }
}

// The same, when there may be no value.
fn lacks_at(without: Without, value: Option<&Value>) -> bool
    ensures { result ≡ lacks_if (without_view without) (value_option_view value.entry) }
{
    match value {
        Some(value) => lacks(without, value),
        None => false,
    }
}

/// The key of the first setting that has to be written and is not.
pub fn first_lacking(table: &[Setting], row: &EntryRow) -> Option<&'static [u8]>
    requires { length (row_values row.now) ≡ length table.now }
    ensures { option_slice (λ key. key) result ≡ lacking_setting table.now (row_values row.now) }
{
    for (at, setting) in table.iter().enumerate() {
        if lacks_at(setting.without, row.value(at)) {
            return Some(setting.key);
        }
    }
    None
}

// ---- what is written

// Adds the value of a pair and its place in the table to what is written. The fault is UnknownSetting,
// or that of the value.
fn put(
    alloc: Global,
    spot: Spot<'_>,
    table: &[Setting],
    tree: &Tree,
    written_values: &mut Vec<Value>,
    order: &mut Vec<usize>,
) -> Result<(), ConfigFault>
    requires { length order.old.items ≡ length written_values.old.items }
    ensures order { OnOk result (GainsPlaces order.old order.new (place_of_key table.now spot.entry.key.now)) }
    ensures has_places { OnOk result (length order.new.items ≡ length written_values.new.items) }
    ensures row { (row : List Value) → WritesValues result row order.new written_values.new
        (put_setting spot.entry table.now tree.now (with_written row order.old.items written_values.old.items)) }
{
    let Some((at, setting)) = setting_of(table, spot.key) else {
        if is_ignored(spot.key) {
            return Ok(());
        }
        return Err(ConfigFault::Bundle(spot.fault(alloc, BundleFaultKind::UnknownSetting)?));
    };
    let value = value(alloc, spot, setting.kind, tree)?;
    written_values.push(value)?;
    order.push(at)?;
    Ok(())
}

// Adds what pairs write, one after the other; or the first fault.
fn overwrite(
    alloc: Global,
    text: &[u8],
    table: &[Setting],
    pairs: &[(Key, Tree)],
    written_values: &mut Vec<Value>,
    order: &mut Vec<usize>,
) -> Result<(), ConfigFault>
    requires { length order.old.items ≡ length written_values.old.items }
    ensures order { OnOk result (GainsPlaces order.old order.new (places_of_pairs table.now pairs.now)) }
    ensures has_places { OnOk result (length order.new.items ≡ length written_values.new.items) }
    ensures row { (row : List Value) → WritesValues result row order.new written_values.new
        (overwrite_settings text.now table.now pairs.now (with_written row order.old.items written_values.old.items)) }
{
    for pair in pairs {
        put(
            alloc,
            spot_of(text, &pair.0),
            table,
            &pair.1,
            written_values,
            order,
        )?;
    }
    Ok(())
}

/// The row of the pairs of an entry, with these values for what is not written. Or the first fault:
/// those of the settings as they are written, and then `Missing` at the spot, with the first key of
/// the table that is required and not written.
#[tactic(auto, unfolding(setting_values::specs::Reading::row_at, crate::specs::View::row_values))]
pub fn row_of(
    alloc: Global,
    spot: Spot<'_>,
    table: &[Setting],
    bare: &Rc<Vec<Value>>,
    pairs: &[(Key, Tree)],
) -> Result<EntryRow, ConfigFault>
    requires { AreSettingDefaults table.now (rc_value bare.now).items }
    ensures order { IfOk result (λ row. row.order.items ≡ places_of_pairs table.now pairs.now) }
    ensures row { GivesRow (λ row. row) result (read_row spot.entry table.now pairs.now) }
{
    let mut written_values = Vec::with_capacity(alloc, pairs.len())?;
    let mut order = Vec::with_capacity(alloc, pairs.len())?;
    overwrite(
        alloc,
        spot.text,
        table,
        pairs,
        &mut written_values,
        &mut order,
    )?;
    let row = EntryRow {
        written_values,
        order,
        bare: bare.clone()?,
    };
    if let Some(key) = first_lacking(table, &row) {
        let missing = Spot { key, ..spot };
        return Err(ConfigFault::Bundle(missing.fault(alloc, BundleFaultKind::Missing)?));
    }
    Ok(row)
}
