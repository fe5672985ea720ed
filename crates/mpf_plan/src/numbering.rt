//! Names by number, in the order of their first uses. A name has its number from its first use on.

ghost use Rattle.std.specs.Prelude.{◌≡◌, ◌≤◌, ◌∷◌, [], length, map, option_map, IfOk, OnOk, ℕ, List};
ghost use Rattle.first_names.specs.FirstNames.{with_name, IsNameTableOf, IsNumberIn};
ghost use Rattle.mpf_plan.specs.Drafting.{AreNamesOf, HasNames, IsNumbered, Notes, guard_condition, names_uses};
ghost use Rattle.mpf_plan.specs.ByNumber.{condition_of, event_of, variable_of};
ghost use Rattle.mpf_plan.specs.Uses.{number_among};
ghost use Rattle.mpf_plan.specs.PlanOf.{condition_uses};
ghost use Rattle.plan_parts.specs.View.{pieces_text};
ghost use Rattle.plan_tables.specs.declared.table.Table.TheVariants.{Events, Variables};

pub(crate) use crate::names::Names;
use first_names::note_name;
use mpf_config::Guard;
use plan_parts::{NamePieces, is_whole, whole, write_name};
use plan_tables::entries::{Condition, EventId, VariableId};
use plan_tables::names::{NameHashing, NameSet, NameTable};
use plan_tables::table::{TABLES, Table};
use std::alloc::{AllocError, Global};

/// No names.
pub(crate) fn no_names(alloc: Global, hashing: NameHashing) -> Result<Names, AllocError>
    ensures { IfOk result (AreNamesOf []) }
{
    let mut tables = Vec::new(alloc);
    for table in TABLES {
        tables.push(NameTable {
            set: NameSet::with_hasher(alloc, hashing),
            limit: table.limit(),
            above: false,
        })?;
    }
    Ok(Names {
        tables,
        text: Vec::new(alloc),
    })
}

impl Names {
    ghost use Rattle.std.specs.Prelude.{◌≡◌, length};
    ghost use Rattle.mpf_plan.specs.Drafting.{is_table_above, kept_names};

    /// How many names of the table are kept.
    pub(crate) fn count(&self, table: Table) -> usize
        ensures { result ≡ length (kept_names self.now table) }
    {
        self.tables[table.index()].set.len()
    }

    /// Whether the table has more names than it keeps.
    pub(crate) fn is_above(&self, table: Table) -> bool
        ensures { result ≡ is_table_above self.now table }
    {
        self.tables[table.index()].above
    }
}

/// One more use of a name, and the name's number.
pub(crate) fn note(
    alloc: Global,
    names: &mut Names,
    table: Table,
    name: NamePieces,
) -> Result<u16, AllocError>
    ensures names { OnOk result (Notes names.old names.new ((table, pieces_text name.entry) ∷ [])) }
    ensures number { IfOk result (λ n. HasNames table
        → IsNumbered names.old ((table, pieces_text name.entry) ∷ [])
        (λ ns. number_among (ns table) (pieces_text name.entry)) n) }
{
    let number = note_pieces(
        alloc,
        &mut names.tables[table.index()],
        &mut names.text,
        name,
    )?;
    Ok(as_kept(number))
}

/// One more use of a name in pieces, and the name's number, as [`note_name`] gives it.
fn note_pieces(
    alloc: Global,
    table: &mut NameTable,
    text: &mut Vec<u8>,
    name: NamePieces,
) -> Result<usize, AllocError>
    ensures limit { OnOk result (table.new.limit ≡ table.old.limit) }
    ensures names { OnOk result ((all : List (List ℕ)) → IsNameTableOf all table.old
        → IsNameTableOf (with_name all (pieces_text name.entry)) table.new) }
    ensures number { IfOk result (IsNumberIn table.old (pieces_text name.entry)) }
{
    if is_whole(&name) {
        return note_name(alloc, table, name.end);
    }
    write_name(text, name)?;
    note_name(alloc, table, text)
}

/// A number as it is kept. No table has so many names that a number does not fit; such a number would become 0.
pub(crate) fn as_kept(number: usize) -> u16
    ensures { number ≤ 65535 → result ≡ number }
{
    if number > 65_535 {
        return 0;
    }
    number as u16
}

// ---- events and variables

/// The event of this name.
pub(crate) fn note_event(
    alloc: Global,
    names: &mut Names,
    name: NamePieces,
) -> Result<EventId, AllocError>
    ensures names { OnOk result (Notes names.old names.new ((Events, pieces_text name.entry) ∷ [])) }
    ensures number { IfOk result (IsNumbered names.old ((Events, pieces_text name.entry) ∷ [])
        (λ ns. event_of (ns Events) (pieces_text name.entry))) }
{
    Ok(EventId(note(alloc, names, Table::Events, name)?))
}

/// The events of these names, in order.
pub(crate) fn note_events(
    alloc: Global,
    names: &mut Names,
    events: &[NamePieces],
) -> Result<Vec<EventId>, AllocError>
    ensures names { OnOk result (Notes names.old names.new (names_uses Events events.now)) }
    ensures numbers { IfOk result (λ v. IsNumbered names.old (names_uses Events events.now)
        (λ ns. map (λ e. event_of (ns Events) (pieces_text e)) events.now) v.items) }
{
    let mut numbers = Vec::with_capacity(alloc, events.len())?;
    for event in events {
        numbers.push(note_event(alloc, names, *event)?)?;
    }
    Ok(numbers)
}

/// Numbers the events of these names.
pub(crate) fn note_mentioned(
    alloc: Global,
    names: &mut Names,
    events: &[NamePieces],
) -> Result<(), AllocError>
    ensures { OnOk result (Notes names.old names.new (names_uses Events events.now)) }
{
    for event in events {
        note(alloc, names, Table::Events, *event)?;
    }
    Ok(())
}

/// The variable of this name.
pub(crate) fn note_variable(
    alloc: Global,
    names: &mut Names,
    name: &[u8],
) -> Result<VariableId, AllocError>
    ensures names { OnOk result (Notes names.old names.new ((Variables, name.now) ∷ [])) }
    ensures number { IfOk result (IsNumbered names.old ((Variables, name.now) ∷ [])
        (λ ns. variable_of (ns Variables) name.now)) }
{
    Ok(VariableId(note(alloc, names, Table::Variables, whole(name))?))
}

/// A condition, by the number of its variable.
pub(crate) fn note_condition(
    alloc: Global,
    names: &mut Names,
    condition: Option<&Guard>,
) -> Result<Option<Condition>, AllocError>
    ensures names { OnOk result (Notes names.old names.new
        (condition_uses (option_map guard_condition condition.entry))) }
    ensures number { IfOk result (IsNumbered names.old (condition_uses (option_map guard_condition condition.entry))
        (λ ns. option_map (condition_of ns) (option_map guard_condition condition.entry))) }
{
    let Some(guard) = condition else {
        return Ok(None);
    };
    let variable = note_variable(alloc, names, &guard.variable)?;
    Ok(Some(Condition {
        variable,
        comparison: guard.comparison,
        number: guard.number,
    }))
}
