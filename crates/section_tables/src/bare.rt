//! What the entries of a section share.

ghost use Rattle.std.specs.Prelude.{◌≡◌, IfOk};
ghost use Rattle.section_tables.specs.TableAnswers.{AreSettingDefaults, IsBareRow};

use crate::rows::EntryRow;
use crate::settings::{bare_row, first_lacking};
use crate::table::Setting;
use setting_values::values::Value;
use std::alloc::{AllocError, Global};
use std::rc::Rc;

/// A table, with what its section's entries share: what holds if nothing is written, and the row
/// of an entry in which nothing is.
#[derive(Drop)]
pub struct Bare<'t> {
    pub table: &'t [Setting],
    /// What holds if nothing is written: a value for each setting.
    pub values: Rc<Vec<Value>>,
    pub row: Rc<EntryRow>,
    /// The key of the first setting that has to be written.
    pub lacks: Option<&'static [u8]>,
    ghost defaults: { AreSettingDefaults table.now values.value.items },
    ghost is_bare: { IsBareRow table.now row.value lacks },
}

/// A table, with what the entries of its section share.
#[tactic(auto, unfolding(crate::specs::View::row_values))]
pub fn bare_of(alloc: Global, table: &[Setting]) -> Result<Bare<'_>, AllocError>
    ensures { IfOk result (λ bare. bare.table.now ≡ table.now) }
{
    let values = Rc::new(alloc, bare_row(alloc, table)?)?;
    let row = EntryRow {
        written_values: Vec::new(alloc),
        order: Vec::new(alloc),
        bare: values.clone()?,
    };
    let lacks = first_lacking(table, &row);
    let row = Rc::new(alloc, row)?;
    Ok(Bare {
        table,
        values,
        row,
        lacks,
    })
}
