//! The names of a plan that is being made.

ghost use Rattle.std.specs.Prelude.{◌≡◌, length};
ghost use Rattle.plan_tables.specs.Limits.{tables_in_order};

use plan_tables::names::NameTable;

/// The names so far.
#[derive(Drop)]
pub(crate) struct Names {
    /// Each table at its index.
    pub(crate) tables: Vec<NameTable>,
    /// Where a name in pieces is put together.
    pub(crate) text: Vec<u8>,
    ghost count: { length tables.items ≡ length tables_in_order },
}
