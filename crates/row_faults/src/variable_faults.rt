//! The variables that no row may change, and where a text changes them.

ghost use Rattle.std.specs.Prelude.{◌≡◌, IfOk, OnOk};
ghost use Rattle.row_faults.specs.Collected.{Gains};
ghost use Rattle.row_faults.specs.VariableFaults.{is_barred};
ghost use Rattle.row_faults.specs.View.{events_view};
ghost use Rattle.row_faults.specs.FaultsOf.{faults_of_variable_item, faults_of_variable_items, faults_of_variables};

use crate::collector::{Faults, add_if, at};
use crate::fault::RowFaultKind;
use crate::reserved::{ModeEventNames, is_reserved};
use mpf_config::{KeyedValues, Section, VariableItem, as_variable_item, as_variable_player};
use mpf_tables::tables::VARIABLE_PLAYER_NAME;
use std::alloc::{AllocError, Global};

/// The two variables that the game alone sets.
const BALL: &[u8] = b"ball";

const NUMBER: &[u8] = b"number";

/// Adds the faults of what a section says of variables, as written.
#[tactic(auto, unfolding(mpf_sections::specs::TypedGame::variable_players_in))]
pub(crate) fn add_variable_players(
    faults: &mut Faults<'_, '_>,
    section: &Section,
) -> Result<(), AllocError>
    ensures { OnOk result (Gains faults.old faults.new (faults_of_variables faults.old section.now)) }
{
    let players = section.players_of(VARIABLE_PLAYER_NAME);
    for player in players {
        add_items(faults, as_variable_player(player).items)?;
    }
    Ok(())
}

/// Adds the faults of the variables that an entry changes.
fn add_items(faults: &mut Faults<'_, '_>, items: &[KeyedValues]) -> Result<(), AllocError>
    ensures { OnOk result (Gains faults.old faults.new (faults_of_variable_items faults.old items.now)) }
{
    for item in items {
        add_item(faults, as_variable_item(item))?;
    }
    Ok(())
}

/// Adds the fault of a variable, if no row may change it.
fn add_item(faults: &mut Faults<'_, '_>, item: VariableItem<'_>) -> Result<(), AllocError>
    ensures { OnOk result (Gains faults.old faults.new (faults_of_variable_item faults.old item.entry)) }
{
    let is_barred_name = is_barred(faults.alloc, faults.modes, &item.variable.text)?;
    let name = at(item.variable);
    add_if(faults, is_barred_name, RowFaultKind::Name, name)
}

/// Whether no row may change the variable of this name.
fn is_barred(alloc: Global, modes: &ModeEventNames, variable: &[u8]) -> Result<bool, AllocError>
    ensures { IfOk result (λ is_barred_name. is_barred_name ≡ is_barred (events_view modes.now) variable.now) }
{
    if variable == BALL || variable == NUMBER {
        return Ok(true);
    }
    let mut event = Vec::from_slice(alloc, b"player_")?;
    event.extend_from_slice(variable)?;
    Ok(is_reserved(modes, &event))
}
