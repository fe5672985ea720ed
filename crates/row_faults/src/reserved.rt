//! The events that no row may post, and where a text posts them.

ghost use Rattle.std.specs.Prelude.{◌≡◌, ◌++◌, [], ◌∷◌, codes, IfOk, OnOk};
ghost use Rattle.yaml_subset.specs.Keys.{is_among};
ghost use Rattle.machine_definitions.specs.GameEvents.{reserved_game_events};
ghost use Rattle.row_faults.specs.Collected.{Gains, post_faults};
ghost use Rattle.row_faults.specs.Reserved.{mode_events, is_reserved_by};
ghost use Rattle.row_faults.specs.View.{events_view};
ghost use Rattle.row_faults.specs.FaultsOf.{GainsEvents, HasEvents, events_of_listed, events_of_texts};
ghost use Rattle.row_faults.specs.FaultsOf.{posts_by_section, posts_in_order, posts_of_counters, posts_of_names};
ghost use Rattle.row_faults.specs.FaultsOf.{posts_of_parts, posts_of_players, posts_of_steps, posts_of_switches};

use crate::as_written::as_written;
use crate::collector::{Faults, add_if, at};
use crate::fault::RowFaultKind;
use machine_definitions::is_reserved_game_event;
use mpf_config::{
    Entry, ModeText, Name, Section, as_counter, as_event_player, as_step_block, as_switch,
};
use mpf_sections::blocks::{COUNTER_COMPLETE, COUNTER_HIT, STEPS_COMPLETE, STEPS_HIT};
use mpf_sections::typed::{ACTIVATION_EVENTS, DEACTIVATION_EVENTS};
use mpf_tables::tables::{
    ACCRUALS_NAME, COUNTERS_NAME, EVENT_PLAYER_NAME, SEQUENCES_NAME, SWITCHES_NAME,
};
use std::alloc::{AllocError, Global};
use std::collections::BTreeSet;

/// The names of events of modes, each without the `mode_` that it begins with.
pub(crate) type ModeEventNames = BTreeSet<Vec<u8>>;

// ---- names

/// The events of the modes of these names.
pub(crate) fn events_of_modes(alloc: Global, modes: &[Name]) -> Result<ModeEventNames, AllocError>
    ensures { IfOk result (λ events. HasEvents events (events_of_listed modes.now)) }
{
    let mut events = BTreeSet::new(alloc);
    for mode in modes {
        add_mode(alloc, &mut events, &mode.text)?;
    }
    Ok(events)
}

/// Adds the events of the modes that have these texts.
pub(crate) fn add_texts(
    alloc: Global,
    events: &mut ModeEventNames,
    texts: &[ModeText],
) -> Result<(), AllocError>
    ensures { OnOk result (HasEvents events.new (events_view events.old ++ events_of_texts texts.now)) }
{
    for text in texts {
        add_mode(alloc, events, &text.name)?;
    }
    Ok(())
}

/// Adds the events of a mode.
fn add_mode(alloc: Global, events: &mut ModeEventNames, mode: &[u8]) -> Result<(), AllocError>
    ensures { OnOk result (GainsEvents events.old events.new (mode_events mode.now)) }
{
    add_event(alloc, events, mode, b"_stopped")?;
    add_event(alloc, events, mode, b"_stopping")?;
    add_event(alloc, events, mode, b"_started")?;
    add_event(alloc, events, mode, b"_starting")?;
    add_event(alloc, events, mode, b"_will_start")
}

/// Adds the event of a mode that ends so.
fn add_event(
    alloc: Global,
    events: &mut ModeEventNames,
    mode: &[u8],
    end: &[u8],
) -> Result<(), AllocError>
    ensures { OnOk result (GainsEvents events.old events.new ((codes "mode_" ++ mode.now ++ end.now) ∷ [])) }
{
    let mut rest = Vec::from_slice(alloc, mode)?;
    rest.extend_from_slice(end)?;
    let _added = events.insert(rest)?;
    Ok(())
}

/// The length of the shortest name of an event of a game that no row may post.
const SHORTEST: usize = 10;

/// Whether a name is that of an event of a game that no row may post. Most names are shorter than
/// these, or begin with another letter.
fn is_of_game(name: &[u8]) -> bool
    ensures { result ≡ is_among reserved_game_events name.now }
{
    if name.len() < SHORTEST {
        return false;
    }
    match name[0] {
        b'b' | b'g' | b'p' => is_reserved_game_event(name),
        _ => false,
    }
}

/// Whether a name is that of one of these events of modes. Few names begin as those do.
fn is_of_mode(modes: &ModeEventNames, name: &[u8]) -> bool
    ensures { result ≡ is_among (events_view modes.now) name.now }
{
    match name.strip_prefix(b"mode_") {
        Some(rest) => modes.contains(rest),
        None => false,
    }
}

/// Whether a name is one of an event of a game, or one of these events of modes.
pub(crate) fn is_reserved(modes: &ModeEventNames, name: &[u8]) -> bool
    ensures { result ≡ is_reserved_by (events_view modes.now) name.now }
{
    is_of_game(name) || is_of_mode(modes, name)
}

// ---- posts

/// Adds a fault for each reserved event that a section posts, entry by entry as written.
#[tactic(auto, unfolding(mpf_sections::specs::Typed::accruals_in, mpf_sections::specs::Typed::sequences_in))]
pub(crate) fn add_posts(faults: &mut Faults<'_, '_>, section: &Section) -> Result<(), AllocError>
    ensures { OnOk result (Gains faults.old faults.new (post_faults faults.old (posts_by_section section.now))) }
{
    add_switches(faults, section)?;
    add_players(faults, section)?;
    add_counters(faults, section)?;
    add_step_blocks(faults, section.entries_of(ACCRUALS_NAME))?;
    add_step_blocks(faults, section.entries_of(SEQUENCES_NAME))
}

/// Adds those of what switches post.
#[tactic(auto, unfolding(mpf_sections::specs::Typed::switches_in))]
fn add_switches(faults: &mut Faults<'_, '_>, section: &Section) -> Result<(), AllocError>
    ensures { OnOk result (Gains faults.old faults.new (post_faults faults.old (posts_of_switches section.now))) }
{
    let entries = section.entries_of(SWITCHES_NAME);
    for entry in entries {
        let switch = as_switch(entry);
        let parts = [
            (ACTIVATION_EVENTS, switch.activation_events),
            (DEACTIVATION_EVENTS, switch.deactivation_events),
        ];
        add_in_order(faults, switch.order, &parts)?;
    }
    Ok(())
}

/// Adds those of what entries of `event_player` post.
#[tactic(auto, unfolding(mpf_sections::specs::Typed::event_players_in))]
fn add_players(faults: &mut Faults<'_, '_>, section: &Section) -> Result<(), AllocError>
    ensures { OnOk result (Gains faults.old faults.new (post_faults faults.old (posts_of_players section.now))) }
{
    let players = section.players_of(EVENT_PLAYER_NAME);
    for player in players {
        add_names(faults, as_event_player(player).posts)?;
    }
    Ok(())
}

/// Adds those of what counters post.
#[tactic(auto, unfolding(mpf_sections::specs::Typed::counters_in))]
fn add_counters(faults: &mut Faults<'_, '_>, section: &Section) -> Result<(), AllocError>
    ensures { OnOk result (Gains faults.old faults.new (post_faults faults.old (posts_of_counters section.now))) }
{
    let entries = section.entries_of(COUNTERS_NAME);
    for entry in entries {
        let counter = as_counter(entry);
        let parts = [
            (COUNTER_HIT, counter.block.hit),
            (COUNTER_COMPLETE, counter.block.complete),
        ];
        add_in_order(faults, counter.order, &parts)?;
    }
    Ok(())
}

/// Adds those of what accruals or sequences post.
fn add_step_blocks(faults: &mut Faults<'_, '_>, entries: &[Entry]) -> Result<(), AllocError>
    ensures { OnOk result (Gains faults.old faults.new (post_faults faults.old (posts_of_steps entries.now))) }
{
    for entry in entries {
        let steps = as_step_block(entry);
        let parts = [
            (STEPS_HIT, steps.block.hit),
            (STEPS_COMPLETE, steps.block.complete),
        ];
        add_in_order(faults, steps.order, &parts)?;
    }
    Ok(())
}

/// Adds those of the names that settings have, in the order in which the settings are written. If
/// none is written, nothing has to be put in order.
fn add_in_order(
    faults: &mut Faults<'_, '_>,
    order: &[usize],
    parts: &[(usize, &[Name])],
) -> Result<(), AllocError>
    ensures { OnOk result (Gains faults.old faults.new (post_faults faults.old (posts_in_order order.now parts.now))) }
{
    if order.is_empty() {
        add_parts(faults, parts)?;
        return Ok(());
    }
    let in_order = as_written(faults.alloc, order, parts)?;
    add_parts(faults, &in_order)?;
    Ok(())
}

fn add_parts(faults: &mut Faults<'_, '_>, parts: &[(usize, &[Name])]) -> Result<(), AllocError>
    ensures { OnOk result (Gains faults.old faults.new (post_faults faults.old (posts_of_parts parts.now))) }
{
    for part in parts {
        add_names(faults, part.1)?;
    }
    Ok(())
}

/// Adds those of these names.
fn add_names(faults: &mut Faults<'_, '_>, names: &[Name]) -> Result<(), AllocError>
    ensures { OnOk result (Gains faults.old faults.new (post_faults faults.old (posts_of_names names.now))) }
{
    for name in names {
        let is_reserved_name = is_reserved(faults.modes, &name.text);
        add_if(faults, is_reserved_name, RowFaultKind::Name, at(name))?;
    }
    Ok(())
}
