//! A plan that is being made.

ghost use Rattle.std.specs.Prelude.{[], IfOk};
ghost use Rattle.mpf_plan.specs.Drafting.{IsDraftOf};

use crate::numbering::{Names, no_names};
use plan_tables::devices::DeviceRow;
use plan_tables::entries::{
    Action, Binding, CoilLimits, GameRules, ListId, ModeEntry, SwitchEntry,
};
use plan_tables::names::NameHashing;
use std::alloc::{AllocError, Global};

/// The tables of a plan, as far as they are made. Numbers in them mean nothing if a table is above its limit.
#[derive(Drop)]
pub(crate) struct Draft {
    pub(crate) names: Names,
    pub(crate) modes: Vec<ModeEntry>,
    /// One for each name of a switch.
    pub(crate) switches: Vec<SwitchEntry>,
    /// One for each name of a coil.
    pub(crate) coils: Vec<CoilLimits>,
    pub(crate) lists: Vec<Vec<Action>>,
    pub(crate) bindings: Vec<Binding>,
    pub(crate) rows: Vec<DeviceRow>,
    pub(crate) row_lists: Vec<ListId>,
    pub(crate) game: Option<GameRules>,
}

/// The draft of no parts.
pub(crate) fn blank(alloc: Global, hashing: NameHashing) -> Result<Draft, AllocError>
    ensures { IfOk result (IsDraftOf []) }
{
    let names = no_names(alloc, hashing)?;
    Ok(Draft {
        names,
        modes: Vec::new(alloc),
        switches: Vec::new(alloc),
        coils: Vec::new(alloc),
        lists: Vec::new(alloc),
        bindings: Vec::new(alloc),
        rows: Vec::new(alloc),
        row_lists: Vec::new(alloc),
        game: None,
    })
}
