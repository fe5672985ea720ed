//! The rows of sections.

ghost use Rattle.std.specs.Prelude.{◌≡◌, length};

use setting_values::values::{Name, Plain, Value};
use std::rc::Rc;

/// The values of an entry. Those that are written are its own. The others it shares with all entries
/// of its section.
#[derive(Drop)]
pub struct EntryRow {
    /// The values that are written, in the order in which they are written. A key that the table does
    /// not have gives none.
    pub(crate) written_values: Vec<Value>,
    /// Their places in the table.
    pub(crate) order: Vec<usize>,
    /// What holds if nothing is written: a value for each setting of the table.
    pub(crate) bare: Rc<Vec<Value>>,
    ghost has_places: { length order.items ≡ length written_values.items },
}

/// An entry of a section. The entries of a section in which nothing is written share one row.
#[derive(Drop)]
pub struct Entry {
    pub name: Name,
    pub row: Rc<EntryRow>,
}

/// An entry of a player: the event that its key is, by its name or as a handled event, and its
/// value.
#[derive(Drop)]
pub struct PlayerEntry {
    pub event: Plain,
    pub value: Value,
}
