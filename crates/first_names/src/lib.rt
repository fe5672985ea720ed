//! The names of a table in the order of their first uses, as far as the table keeps them.
#![tactic(auto)]

ghost use Rattle.std.specs.Prelude.{◌≡◌, ℕ, List, IfOk, OnOk};
ghost use Rattle.first_names.specs.FirstNames.{with_name, IsNameTableOf, IsNumberIn};

use plan_tables::names::NameTable;
use std::alloc::{AllocError, Global};

/// One more use of a name, and the name's number. A name that is new goes last. It is copied
/// only then, and only up to the limit of the table: a name above it is left out, and the table says
/// so from then on. Then the number has no meaning.
///
/// # Errors
///
/// If memory runs out. No clause says what the table has then, so drop it.
pub fn note_name(alloc: Global, table: &mut NameTable, name: &[u8]) -> Result<usize, AllocError>
    ensures limit { OnOk result (table.new.limit ≡ table.old.limit) }
    ensures names { OnOk result ((all : List (List ℕ)) → IsNameTableOf all table.old
        → IsNameTableOf (with_name all name.now) table.new) }
    ensures number { IfOk result (IsNumberIn table.old name.now) }
{
    if table.above {
        return Ok(0);
    }
    if let Some(number) = table.set.get_index_of(name) {
        return Ok(number);
    }
    let number = table.set.len();
    if number >= table.limit {
        table.above = true;
        return Ok(number);
    }
    table.set.insert(Vec::from_slice(alloc, name)?)?;
    Ok(number)
}
