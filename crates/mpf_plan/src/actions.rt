//! What effect lists do, by number; and switches and coils, each with its number from the first use of its name on.

ghost use Rattle.std.specs.Prelude.{◌≡◌, ◌+◌, ◌∷◌, [], length, map, IfOk, OnOk};
ghost use Rattle.std.specs.List.{flat_map};
ghost use Rattle.mpf_plan.specs.ByNumber.{action_of, action_with, coil_of};
ghost use Rattle.mpf_plan.specs.Drafting.{HasBlankSwitch, IsNumbered, NotesCoil, NotesEffects, NotesSwitch};
ghost use Rattle.mpf_plan.specs.PlanOf.{effect_uses};
ghost use Rattle.mpf_plan.specs.Uses.{number_among};
ghost use Rattle.plan_parts.specs.View.{deed_view, effect_view};
ghost use Rattle.plan_tables.specs.declared.table.Table.TheVariants.{Switches, Coils};

use crate::numbering::{Names, note, note_event, note_variable};
use machine_settings::Contact;
use plan_parts::{Deed, Effect, player_event, whole};
use plan_tables::devices::RowId;
use plan_tables::entries::{Action, CoilId, CoilLimits, SwitchEntry, SwitchKind};
use plan_tables::table::Table;
use std::alloc::{AllocError, Global};

// ---- switches and coils

/// The number of the switch of this name. If the name is new, there is a switch more, of which no more is known.
pub(crate) fn note_switch(
    alloc: Global,
    names: &mut Names,
    switches: &mut Vec<SwitchEntry>,
    name: &[u8],
) -> Result<usize, AllocError>
    ensures names { OnOk result (NotesSwitch names.old names.new switches.old switches.new name.now) }
    ensures number { IfOk result (IsNumbered names.old ((Switches, name.now) ∷ [])
        (λ ns. number_among (ns Switches) name.now)) }
{
    let number = note(alloc, names, Table::Switches, whole(name))?;
    if switches.len() < names.count(Table::Switches) {
        add_blank_switch(alloc, switches)?;
    }
    Ok(number as usize)
}

/// A switch of which no more is known than its name.
fn add_blank_switch(alloc: Global, switches: &mut Vec<SwitchEntry>) -> Result<(), AllocError>
    ensures count { OnOk result (length switches.new.items ≡ length switches.old.items + 1) }
    ensures entries { OnOk result (HasBlankSwitch switches.old switches.new) }
{
    switches.push(SwitchEntry {
        kind: SwitchKind {
            contact: Contact::NormallyOpen,
            quick: false,
        },
        listeners: Vec::new(alloc),
        confirms_playfield: false,
        active: Vec::new(alloc),
        inactive: Vec::new(alloc),
    })?;
    Ok(())
}

/// The coil of this name. If the name is new, there is a coil more, of which no more is known.
pub(crate) fn note_coil(
    alloc: Global,
    names: &mut Names,
    coils: &mut Vec<CoilLimits>,
    name: &[u8],
) -> Result<CoilId, AllocError>
    ensures names { OnOk result (NotesCoil names.old names.new coils.old coils.new name.now) }
    ensures number { IfOk result (IsNumbered names.old ((Coils, name.now) ∷ []) (λ ns. coil_of (ns Coils) name.now)) }
{
    let number = note(alloc, names, Table::Coils, whole(name))?;
    if coils.len() < names.count(Table::Coils) {
        coils.push(CoilLimits {
            max_pulse_ms: 0,
            max_pulse_power: 0,
            max_hold_power: 0,
            may_hold: false,
        })?;
    }
    Ok(CoilId(number))
}

// ---- effect lists

/// What an effect list does, by number. What happens with balls happens in the ball device in this row.
pub(crate) fn actions_of(
    alloc: Global,
    names: &mut Names,
    coils: &mut Vec<CoilLimits>,
    row: RowId,
    effects: &[Effect],
) -> Result<Vec<Action>, AllocError>
    ensures names { OnOk result (NotesEffects names.old names.new coils.old coils.new (map effect_view effects.now)) }
    ensures actions { IfOk result (λ v. IsNumbered names.old (flat_map effect_uses (map effect_view effects.now))
        (λ ns. map (action_of ns row) (map effect_view effects.now)) v.items) }
{
    let mut actions = Vec::with_capacity(alloc, effects.len())?;
    for effect in effects {
        actions.push(action_of(alloc, names, coils, row, *effect)?)?;
    }
    Ok(actions)
}

/// One thing that an effect list does, by number.
fn action_of(
    alloc: Global,
    names: &mut Names,
    coils: &mut Vec<CoilLimits>,
    row: RowId,
    effect: Effect,
) -> Result<Action, AllocError>
    ensures names { OnOk result (NotesEffects names.old names.new coils.old coils.new (effect_view effect.entry ∷ [])) }
    ensures action { IfOk result (IsNumbered names.old (effect_uses (effect_view effect.entry))
        (λ ns. action_of ns row (effect_view effect.entry))) }
{
    match effect {
        Effect::Post(name) => Ok(Action::Post(note_event(alloc, names, name)?)),
        Effect::Coil(name, deed) => {
            let coil = note_coil(alloc, names, coils, name)?;
            Ok(action_with(coil, deed))
        }
        Effect::Variable(name, action, number) => {
            let event = note_event(alloc, names, player_event(name))?;
            let variable = note_variable(alloc, names, name)?;
            Ok(Action::Change {
                variable,
                action,
                number,
                event,
            })
        }
        Effect::Enter(name, drain) => Ok(Action::Enter {
            device: row,
            event: note_event(alloc, names, name)?,
            drain,
        }),
        Effect::Leave => Ok(Action::Leave { device: row }),
        Effect::Lose => Ok(Action::Lose { device: row }),
        Effect::Arrive => Ok(Action::Arrive { device: row }),
        Effect::Request(balls) => Ok(Action::Request { balls }),
        Effect::AddBalls(balls) => Ok(Action::AddBalls { balls }),
    }
}

/// What is done with this coil.
fn action_with(coil: CoilId, deed: Deed) -> Action
    ensures { result ≡ action_with coil (deed_view deed) }
{
    match deed {
        Deed::Pulse { ms, power } => Action::Pulse { coil, ms, power },
        Deed::Enable { power } => Action::Enable { coil, power },
        Deed::Disable => Action::Disable { coil },
    }
}
