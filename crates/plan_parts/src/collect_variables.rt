//! What the entries of variable players give to a plan.

ghost use Rattle.std.specs.Prelude.{◌≡◌, map, OnOk};
ghost use Rattle.mpf_sections.specs.TypedGame.{variable_item_of};
ghost use Rattle.mpf_sections.specs.View.{keyed_view, variable_item_view};
ghost use Rattle.plan_parts.specs.Gives.{Gives, variable_player_gives};
ghost use Rattle.plan_parts.specs.Lists.{with_last};
ghost use Rattle.plan_parts.specs.VariableEntries.{item_change};
ghost use Rattle.plan_parts.specs.View.{effect_view};

use crate::effects::{Effect, EffectLists};
use crate::row_parts::{HandledName, RowHead, RowParts};
use mpf_config::{KeyedValues, VariableItem, VariablePlayer, as_variable_item};
use std::alloc::AllocError;

/// A handler of its event, which does what the items say.
pub(crate) fn collect_variable_player<'a>(
    parts: &mut RowParts<'a>,
    row: VariablePlayer<'a>,
) -> Result<(), AllocError>
    ensures { OnOk result (Gives parts.old parts.new (variable_player_gives row.entry)) }
{
    parts.head = RowHead::Handler(HandledName::as_written(row.event));
    parts.lists.begin()?;
    collect_changes(&mut parts.lists, row.items)
}

/// What an item does.
fn change_of(item: VariableItem<'_>) -> Effect<'_>
    ensures { effect_view result ≡ item_change (variable_item_view item.entry) }
{
    Effect::Variable(&item.variable.text, item.action, item.number)
}

/// The list that began last does what the items say.
fn collect_changes<'a>(
    lists: &mut EffectLists<'a>,
    items: &'a [KeyedValues],
) -> Result<(), AllocError>
    ensures { OnOk result (lists.new ≡ with_last (map item_change (map variable_item_of (map keyed_view items.now)))
        lists.old) }
{
    for pair in items {
        lists.add(change_of(as_variable_item(pair)))?;
    }
    Ok(())
}
