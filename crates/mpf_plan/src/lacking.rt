//! Names that nothing has.

ghost use Rattle.std.specs.Prelude.{◌≡◌, IfOk, map, option_map};
ghost use Rattle.std.specs.List.{list_any};
ghost use Rattle.mpf_config.specs.FewModes.{AreFewModes};
ghost use Rattle.mpf_plan.specs.Lacking.{lacks, lacks_coil, lacks_mention, lacks_part, parts_of_rows};
ghost use Rattle.mpf_plan.specs.PlanOf.{lacks_name};
ghost use Rattle.plan_parts.specs.RowViews.{bytes_view, head_parts, parts_in};
ghost use Rattle.plan_parts.specs.View.{effect_view};
ghost use Rattle.plan_rows.specs.Rows.{rows_of};
ghost use Rattle.plan_rows.specs.View.{row_list_view};
ghost use Rattle.plan_tables.specs.declared.table.Table.TheVariants.{Switches};

use machine_definitions::Definitions;
use plan_parts::{Effect, RowHead, RowParts, RowText, collect_row};
use plan_rows::Row;
use std::alloc::{AllocError, Global};

/// Whether the rows use a name that nothing has.
pub(crate) fn lacks_name(
    alloc: Global,
    definitions: &Definitions,
    rows: &[Row],
) -> Result<bool, AllocError>
    requires rows { row_list_view rows.now ≡ rows_of definitions.now }
    requires modes { AreFewModes definitions.now.modes }
    ensures { IfOk result (λ b. b ≡ lacks_name (parts_of_rows definitions.now rows.now)) }
{
    let mut parts = RowParts::new(alloc);
    lacks_name_by(definitions, rows, &mut parts)
}

/// The same. The parts of one row after the other come into `parts`.
fn lacks_name_by<'a>(
    definitions: &Definitions<'_>,
    rows: &[Row<'_, 'a>],
    parts: &mut RowParts<'a>,
) -> Result<bool, AllocError>
    requires rows { row_list_view rows.now ≡ rows_of definitions.now }
    requires modes { AreFewModes definitions.now.modes }
    ensures { IfOk result (λ b. b ≡ lacks_name (parts_of_rows definitions.now rows.now)) }
{
    let mut text = RowText::machine();
    for row in rows {
        collect_row(parts, definitions, text, *row)?;
        if lacks_part(definitions, parts) {
            return Ok(true);
        }
        text = text.after(*row);
    }
    Ok(false)
}

/// Whether a row names what nothing has: a profile, a shot or a ball device that is unknown, or a switch or a coil that
/// no entry of the machine text defines. A row that is a switch or a coil defines its own name.
fn lacks_part(definitions: &Definitions, parts: &RowParts) -> bool
    ensures { result ≡ list_any (lacks_part definitions.now.machine) (parts_in parts.now) }
{
    parts.unknown || lacks_mention(definitions, parts.mention) || lacks_in_head(definitions, parts)
}

/// Whether nothing defines a switch to which a device listens, or a coil of an effect list.
fn lacks_in_head(definitions: &Definitions, parts: &RowParts) -> bool
    ensures { result ≡ list_any (lacks_part definitions.now.machine) (head_parts parts.now) }
{
    match parts.head {
        RowHead::Device(_) => {
            lacks_listened(definitions, &parts.listens)
                || lacks_coil(definitions, parts.lists.effects())
        }
        RowHead::Handler(_) => lacks_coil(definitions, parts.lists.effects()),
        _ => false,
    }
}

/// Whether nothing defines the switch of a shot.
fn lacks_mention(definitions: &Definitions, switch: Option<&[u8]>) -> bool
    ensures { result ≡ lacks_mention definitions.now.machine (option_map (λ n. n.now) switch.entry) }
{
    match switch {
        Some(name) => !definitions.has_switch(name),
        None => false,
    }
}

/// Whether nothing defines one of these switches.
fn lacks_listened(definitions: &Definitions, switches: &[&[u8]]) -> bool
    ensures { result ≡ list_any (lacks definitions.now.machine Switches) (bytes_view switches.now) }
{
    switches.iter().any(|name| !definitions.has_switch(name))
}

/// Whether nothing defines a coil with which something is done.
fn lacks_coil(definitions: &Definitions, effects: &[Effect]) -> bool
    ensures { result ≡ list_any (lacks_coil definitions.now.machine) (map effect_view effects.now) }
{
    for effect in effects {
        if is_coil_lacking(definitions, *effect) {
            return true;
        }
    }
    false
}

/// Whether this is done with a coil that nothing defines.
fn is_coil_lacking(definitions: &Definitions, effect: Effect) -> bool
    ensures { result ≡ lacks_coil definitions.now.machine (effect_view effect.entry) }
{
    match effect {
        Effect::Coil(name, _) => definitions.coil(name).is_none(),
        _ => false,
    }
}
