//! The plan of a configuration.

ghost use Rattle.std.specs.Prelude.{◌≡◌, ◌≤◌, false, length, nat_lt, IfOk, List};
ghost use Rattle.mpf_plan.specs.Drafting.{IsDraftOf, draft_view, kept_names};
ghost use Rattle.mpf_config.specs.FewModes.{AreFewModes};
ghost use Rattle.mpf_config.specs.Short.{AreListsShort};
ghost use Rattle.mpf_config.specs.States.{HaveStates};
ghost use Rattle.plan_parts.specs.Parts.{Part, parts_of};
ghost use Rattle.plan_rows.specs.Rows.{rows_of};
ghost use Rattle.plan_rows.specs.View.{row_list_view};
ghost use Rattle.plan_tables.specs.declared.table.Table.{Table as TableValue};
ghost use Rattle.plan_tables.specs.PlanFields.{tables_view};
ghost use Rattle.plan_tables.specs.Limits.{entry_count, first_above, limit_of};
ghost use Rattle.mpf_plan.specs.PlanOf.{plan_at, plan_by, plan_of, lacks_name, names_of, GivesPlan, IsExceeded};
ghost use Rattle.mpf_plan.specs.OfConfig.{PlansConfig, plan_of_config, IsExceededBy};

use crate::draft::Draft;
use crate::fault::PlanFault;
use crate::fill::fill;
use crate::lacking::lacks_name;
use machine_definitions::Definitions;
use mpf_config::config::Config;
use plan_rows::{Row, rows_of};
use plan_tables::names::{NameHashing, NameSets};
use plan_tables::table::{TABLES, Table};
use plan_tables::tables::{Plan, Tables};
use std::alloc::Global;

/// The plan of a configuration.
///
/// Each row of the configuration gives parts, by names: `parts_of` in `plan_parts` says which. The parts give the
/// tables of the plan: `plan_by` says how.
///
/// The rows of the machine text come first, then those of one mode after the other, in the order of the modes.
/// Bindings, rows of devices and effect lists are in this order. Events, switches, coils and variables are numbered in
/// the order of their first uses. What a part names by its settings comes before what it names in its effect lists.
///
/// # Errors
///
/// - `NoSuchName`: a switch or a coil is named that no entry of the machine text has, or a setting names something else
///   that nothing has: a profile, a shot or a ball device.
/// - `Limit`: a table is above its limit; the first such table in the order of `Table` is reported.
/// - `NoMemory`: memory ran out.
pub fn plan(alloc: Global, config: &Config) -> Result<Plan, PlanFault>
    ensures exact { PlansConfig config.now result }
    ensures plan { IfOk result (λ p. p ≡ plan_of_config config.now) }
    ensures within { IfOk result (λ _. (t : TableValue) → entry_count (plan_of_config config.now) t ≤ limit_of t) }
    ensures limit { (t : TableValue) → result ≡ Err (PlanFault.Limit t) → IsExceededBy config.now t }
{
    let definitions = Definitions::new(alloc, config)?;
    plan_of_definitions(alloc, &definitions)
}

/// The plan of the rows that these definitions are of, as [`plan`] gives it.
fn plan_of_definitions(alloc: Global, definitions: &Definitions<'_>) -> Result<Plan, PlanFault>
    ensures exact { GivesPlan result (plan_at definitions.now) }
    ensures plan { IfOk result (λ p. p ≡ plan_of definitions.now) }
    ensures within { IfOk result (λ _. (t : TableValue) → entry_count (plan_of definitions.now) t ≤ limit_of t) }
    ensures limit { (t : TableValue) → result ≡ Err (PlanFault.Limit t) → IsExceeded definitions.now t }
{
    let config = definitions.config();
    let rows = rows_of(alloc, definitions)?;
    let lacking = lacks_name(alloc, definitions, &rows)?;
    if lacking {
        return Err(PlanFault::NoSuchName);
    }
    plan_of_rows(alloc, config.hashing, definitions, &rows)
}

/// The plan of the rows that these definitions are of, as [`plan`] gives it, if no name is used
/// that nothing has. It does not look for one.
///
/// # Errors
///
/// - `Limit`: a table is above its limit; the first such table in the order of `Table` is reported.
/// - `NoMemory`: memory ran out.
pub fn plan_complete(alloc: Global, definitions: &Definitions<'_>) -> Result<Plan, PlanFault>
    requires { lacks_name (parts_of definitions.now) ≡ false }
    ensures exact { GivesPlan result (plan_at definitions.now) }
    ensures plan { IfOk result (λ p. p ≡ plan_of definitions.now) }
    ensures within { IfOk result (λ _. (t : TableValue) → entry_count (plan_of definitions.now) t ≤ limit_of t) }
    ensures limit { (t : TableValue) → result ≡ Err (PlanFault.Limit t) → IsExceeded definitions.now t }
{
    let config = definitions.config();
    let rows = rows_of(alloc, definitions)?;
    plan_of_rows(alloc, config.hashing, definitions, &rows)
}

/// The plan of these rows, if they use no name that nothing has.
fn plan_of_rows(
    alloc: Global,
    hashing: NameHashing,
    definitions: &Definitions,
    rows: &[Row],
) -> Result<Plan, PlanFault>
    requires rows { row_list_view rows.now ≡ rows_of definitions.now }
    requires complete { lacks_name (parts_of definitions.now) ≡ false }
    requires short { AreListsShort definitions.now }
    requires states { HaveStates definitions.now }
    requires modes { AreFewModes definitions.now.modes }
    ensures exact { GivesPlan result (plan_at definitions.now) }
    ensures plan { IfOk result (λ p. p ≡ plan_of definitions.now) }
    ensures within { IfOk result (λ _. (t : TableValue) → entry_count (plan_of definitions.now) t ≤ limit_of t) }
    ensures limit { (t : TableValue) → result ≡ Err (PlanFault.Limit t) → IsExceeded definitions.now t }
{
    let draft = fill(alloc, hashing, definitions, rows)?;
    if let Some(table) = first_above(&draft) {
        return Err(PlanFault::Limit(table));
    }
    let plan = Plan::new(alloc, tables_of(draft))?;
    Ok(plan)
}

/// The tables of a draft that keeps no more names of a table than its limit.
fn tables_of(draft: Draft) -> Tables
    requires { (t : TableValue) → length (kept_names draft.names t) ≤ limit_of t }
    ensures tables { tables_view result ≡ draft_view draft }
    ensures names { result.names.tables ≡ draft.names.tables }
    ensures switches { result.switches ≡ draft.switches }
    ensures coils { result.coils ≡ draft.coils }
{
    let names = draft.names;
    Tables {
        names: NameSets {
            tables: names.tables,
        },
        modes: draft.modes,
        switches: draft.switches,
        coils: draft.coils,
        lists: draft.lists,
        bindings: draft.bindings,
        rows: draft.rows,
        row_lists: draft.row_lists,
        game: draft.game,
    }
}

/// The first table that is above its limit.
fn first_above(draft: &Draft) -> Option<Table>
    ensures { (ps : List Part) → IsDraftOf ps draft.now → result ≡ first_above (plan_by (names_of ps) ps) }
{
    for table in TABLES {
        if is_above(draft, table) {
            return Some(table);
        }
    }
    None
}

fn is_above(draft: &Draft, table: Table) -> bool
    ensures { (ps : List Part) → IsDraftOf ps draft.now
        → result ≡ nat_lt (limit_of table) (entry_count (plan_by (names_of ps) ps) table) }
{
    match table {
        Table::Bindings => draft.bindings.len() > table.limit(),
        Table::Rows => draft.rows.len() > table.limit(),
        _ => draft.names.is_above(table),
    }
}
