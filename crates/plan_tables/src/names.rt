//! The names of a plan's tables, at their numbers.

ghost use Rattle.std.specs.Prelude.{◌≡◌, ◌≤◌, length, slice_get};
ghost use Rattle.plan_tables.specs.declared.table.Table.{Table as TableValue};
ghost use Rattle.plan_tables.specs.Limits.{limit_of, order_of, tables_in_order};
ghost use Rattle.plan_tables.specs.NamesKept.{names_kept};

use crate::table::Table;
use indexmap::IndexSet;

/// Makes the hashers of names, by the bundle that they are parts of.
pub use yaml_bytes::SeededHashing as NameHashing;

/// Names at their numbers.
pub type NameSet = IndexSet<Vec<u8>, NameHashing>;

/// The first names of a table, as far as they are kept.
#[derive(Drop)]
pub struct NameTable {
    /// Those that are kept.
    pub set: NameSet,
    /// At most so many are kept.
    pub limit: usize,
    /// Whether there are more.
    pub above: bool,
}

/// The names of each table, at their numbers; each table at its index.
#[derive(Drop)]
pub struct NameSets {
    /// As in [`crate::TABLES`]. A table without names has none here.
    pub tables: Vec<NameTable>,
    ghost count: { length tables.items ≡ length tables_in_order },
    ghost fit: { (t : TableValue) → length (names_kept (slice_get tables.items (order_of t))) ≤ limit_of t },
}

impl NameSets {
    ghost use Rattle.std.specs.Prelude.{◌≡◌, ◌≤◌, length};
    ghost use Rattle.plan_tables.specs.Limits.{limit_of};
    ghost use Rattle.plan_tables.specs.NamesKept.{names_of};
    ghost use Rattle.plan_tables.specs.PlanFields.{name_sets_view};

    /// The names of a table.
    pub fn of(&self, table: Table) -> &NameSet
        ensures names { names_of result.now.keys ≡ name_sets_view self.now table }
        ensures fit { length result.now.keys ≤ limit_of table }
    {
        &self.tables[table.index()].set
    }
}
