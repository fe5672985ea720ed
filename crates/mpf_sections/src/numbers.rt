//! Numbers and times of an entry, with the bounds and the defaults that its table gives.

ghost use Rattle.std.specs.Prelude.{◌≡◌, slice_get, None};
ghost use Rattle.setting_values.specs.KindView.{kind_view};
ghost use Rattle.section_tables.specs.TableView.{without_view, table_view};
ghost use Rattle.section_tables.specs.View.{value_option_view, entry_view};
ghost use Rattle.mpf_sections.specs.TypedNumbers.{default_number, bounded_number, number_by, number_under, number_at};
ghost use Rattle.mpf_sections.specs.TypedNumbers.{natural_from, default_time, bounded_time, time_by, time_at};

use section_tables::rows::Entry;
use section_tables::table::{Setting, Without};
use setting_values::kinds::{Absent, Kind, Scalar};
use setting_values::values::{Plain, Value};

// ---- numbers

// The default of a number, or the least number if there is no default.
fn default_number(least: i64, without: Without) -> i64
    ensures { result ≡ default_number least (without_view without) }
{
    match without {
        Without::One(Absent::Number(number)) => number,
        _ => least,
    }
}

// A number that keeps to these bounds; if there is none, another.
fn bounded_number(value: Option<&Value>, least: i64, greatest: i64, otherwise: i64) -> i64
    ensures { result ≡ bounded_number least greatest otherwise (value_option_view value.entry) }
{
    match value {
        Some(Value::One(Plain::Number(n))) if least <= *n && *n <= greatest => *n,
        _ => otherwise,
    }
}

// The number that a setting of this kind has, by its value; 0 if it is no setting of a number.
fn number_by(value: Option<&Value>, kind: Kind, without: Without) -> i64
    ensures { result ≡ number_by (kind_view kind) (without_view without) (value_option_view value.entry) }
{
    match kind {
        Kind::One(Scalar::Number(least, greatest)) => {
            bounded_number(value, least, greatest, default_number(least, without))
        }
        _ => 0,
    }
}

// The number that the setting at this place of a table has, by its value.
fn number_under(value: Option<&Value>, table: &[Setting], at: usize) -> i64
    ensures { result ≡ number_under (slice_get (table_view table.now) at) (value_option_view value.entry) }
{
    match table.get(at) {
        Some(setting) => number_by(value, setting.kind, setting.without),
        None => 0,
    }
}

// A number from 0 to 2^32 - 1; of any other, 0.
fn natural_from(number: i64) -> u32
    ensures { result ≡ natural_from number }
{
    u32::try_from(number).unwrap_or(0)
}

/// The number at a place of an entry of this table.
pub fn natural(entry: &Entry, table: &[Setting], at: usize) -> u32
    ensures { result ≡ natural_from (number_at (table_view table.now) (entry_view entry.now).values at) }
{
    natural_from(number_under(entry.value(at), table, at))
}

/// The number of a setting of this table if there is no entry.
pub fn natural_default(table: &[Setting], at: usize) -> u32
    ensures { result ≡ natural_from (number_under (slice_get (table_view table.now) at) None) }
{
    natural_from(number_under(None, table, at))
}

// ---- times

// The default of a time, or the least time if there is no default.
fn default_time(least: u32, without: Without) -> u32
    ensures { result ≡ default_time least (without_view without) }
{
    match without {
        Without::One(Absent::Time(ms)) => ms,
        _ => least,
    }
}

// Milliseconds that keep to these bounds; if there are none, others.
fn bounded_time(value: Option<&Value>, least: u32, greatest: u32, otherwise: u32) -> u32
    ensures { result ≡ bounded_time least greatest otherwise (value_option_view value.entry) }
{
    match value {
        Some(Value::One(Plain::Time(ms))) if least <= *ms && *ms <= greatest => *ms,
        _ => otherwise,
    }
}

// The milliseconds that a setting of this kind has, by its value; 0 if it is no setting of a
// time.
fn time_by(value: Option<&Value>, kind: Kind, without: Without) -> u32
    ensures { result ≡ time_by (kind_view kind) (without_view without) (value_option_view value.entry) }
{
    match kind {
        Kind::One(Scalar::Time(least, greatest)) => {
            bounded_time(value, least, greatest, default_time(least, without))
        }
        _ => 0,
    }
}

/// The milliseconds at a place of an entry of this table.
pub fn duration_at(entry: &Entry, table: &[Setting], at: usize) -> u32
    ensures { result ≡ time_at (table_view table.now) (entry_view entry.now).values at }
{
    match table.get(at) {
        Some(setting) => time_by(entry.value(at), setting.kind, setting.without),
        None => 0,
    }
}
