//! The draft of a plan: each row adds its parts to the tables.

ghost use Rattle.std.specs.Prelude.{◌≡◌, ◌≤◌, ◌<◌, ◌∷◌, [], length, map, slice_index_or, IfOk, OnOk};
ghost use Rattle.machine_definitions.specs.GameEvents.{game_event_names};
ghost use Rattle.mpf_config.specs.FewModes.{AreFewModes};
ghost use Rattle.mpf_plan.specs.ByNumber.{event_of};
ghost use Rattle.mpf_plan.specs.Drafting.{Adds, AddsActs, AddsBinding, AddsLists, AddsListeners, EntersSwitch};
ghost use Rattle.mpf_plan.specs.Drafting.{GivesDraft, IsNumbered, LimitsCoil, ListensTo, Notes, mode_events_of};
ghost use Rattle.mpf_plan.specs.Drafting.{control_target, seated_parts};
ghost use Rattle.mpf_plan.specs.PlanOf.{mode_event_names, uses_of};
ghost use Rattle.mpf_sections.specs.View.{mode_settings_view};
ghost use Rattle.plan_parts.specs.Parts.{coil, game, handler, mention, mode, run, switch, where_some};
ghost use Rattle.plan_parts.specs.RowViews.{acts_view, bytes_view, control_parts, controls_view, device_in};
ghost use Rattle.plan_parts.specs.RowViews.{handled_event_view, head_parts, names_view, parts_in, whose_view};
ghost use Rattle.plan_parts.specs.View.{effect_view};
ghost use Rattle.plan_rows.specs.Rows.{rows_of};
ghost use Rattle.plan_rows.specs.View.{row_list_view};
ghost use Rattle.plan_tables.specs.declared.table.Table.TheVariants.{Events, Switches};

use crate::actions::{actions_of, note_coil, note_switch};
use crate::draft::{Draft, blank};
use crate::fault::PlanFault;
use crate::numbering::{Names, as_kept, note_condition, note_event, note_events, note_mentioned};
use machine_definitions::{Definitions, GAME_EVENT_NAMES};
use mpf_config::ModeSettings;
use plan_parts::{
    Effect, EffectLists, HandledName, ModeControl, NamePieces, RowHead, RowParts, RowText, Whose,
    collect_row, mode_event_name, whole,
};
use plan_rows::Row;
use plan_tables::devices::{Act, DeviceRow, RowId, Settings};
use plan_tables::entries::{
    Action, Binding, CoilLimits, EventId, GameRules, ListId, Listener, Mode, ModeEntry, ModeEvent,
    ModeEvents, ModeId, SwitchEntry, SwitchKind, Target,
};
use plan_tables::names::NameHashing;
use plan_tables::table::Table;
use std::alloc::{AllocError, Global};

/// The draft of these rows. Events are the table that is judged first: if there are too many, no more rows are looked
/// at.
pub(crate) fn fill(
    alloc: Global,
    hashing: NameHashing,
    definitions: &Definitions,
    rows: &[Row],
) -> Result<Draft, PlanFault>
    requires rows { row_list_view rows.now ≡ rows_of definitions.now }
    requires modes { AreFewModes definitions.now.modes }
    ensures { GivesDraft definitions.now rows.now result }
{
    let mut parts = RowParts::new(alloc);
    fill_by(alloc, hashing, definitions, rows, &mut parts)
}

/// The same. The parts of one row after the other come into `parts`.
fn fill_by<'a>(
    alloc: Global,
    hashing: NameHashing,
    definitions: &Definitions<'_>,
    rows: &[Row<'_, 'a>],
    parts: &mut RowParts<'a>,
) -> Result<Draft, PlanFault>
    requires rows { row_list_view rows.now ≡ rows_of definitions.now }
    requires modes { AreFewModes definitions.now.modes }
    ensures { GivesDraft definitions.now rows.now result }
{
    let mut draft = blank(alloc, hashing)?;
    let mut text = RowText::machine();
    for row in rows {
        collect_row(parts, definitions, text, *row)?;
        add_row(alloc, &mut draft, parts)?;
        if draft.names.is_above(Table::Events) {
            return Err(PlanFault::Limit(Table::Events));
        }
        text = text.after(*row);
    }
    Ok(draft)
}

/// Adds the parts of a row. The switch of a shot is named first.
fn add_row(alloc: Global, draft: &mut Draft, parts: &RowParts) -> Result<(), AllocError>
    ensures { OnOk result (Adds draft.old draft.new (parts_in parts.now)) }
{
    add_mention(alloc, draft, parts.mention)?;
    add_head(alloc, draft, parts)
}

/// The switch of a shot is named.
fn add_mention(alloc: Global, draft: &mut Draft, switch: Option<&[u8]>) -> Result<(), AllocError>
    ensures { OnOk result (Adds draft.old draft.new (where_some (λ n. mention Switches n.now) switch.entry)) }
{
    let Some(name) = switch else {
        return Ok(());
    };
    note_switch(alloc, &mut draft.names, &mut draft.switches, name)?;
    Ok(())
}

/// Adds the parts of a row's head.
fn add_head(alloc: Global, draft: &mut Draft, parts: &RowParts) -> Result<(), AllocError>
    ensures { OnOk result (Adds draft.old draft.new (head_parts parts.now)) }
{
    match parts.head {
        RowHead::Nothing => Ok(()),
        RowHead::Switch {
            name,
            kind,
            confirms_playfield,
        } => add_switch(alloc, draft, name, kind, confirms_playfield, parts),
        RowHead::Coil(name, limits) => add_coil(alloc, draft, name, limits),
        RowHead::Game {
            min_balls,
            balls_per_game,
            max_players,
        } => add_game(alloc, draft, min_balls, balls_per_game, max_players),
        RowHead::Mode(number, name, settings) => {
            add_mode(alloc, draft, name, settings)?;
            add_controls(alloc, draft, parts.whose, number, &parts.controls)
        }
        RowHead::Handler(handled_name) => {
            add_handler(
                alloc,
                draft,
                parts.whose,
                handled_name,
                parts.lists.effects(),
            )
        }
        RowHead::Device(settings) => add_device(alloc, draft, parts, settings),
        RowHead::Seat(row) => add_seated(alloc, draft, parts.whose, row, &parts.event_acts),
    }
}

// ---- switches

/// A switch, with what it posts.
fn add_switch(
    alloc: Global,
    draft: &mut Draft,
    name: &[u8],
    kind: SwitchKind,
    confirms_playfield: bool,
    parts: &RowParts,
) -> Result<(), AllocError>
    ensures { OnOk result (Adds draft.old draft.new
        (switch name.now kind confirms_playfield (names_view parts.now.active.items)
        (names_view parts.now.inactive.items) ∷ [])) }
{
    let number = note_switch(alloc, &mut draft.names, &mut draft.switches, name)?;
    let active = note_events(alloc, &mut draft.names, &parts.active)?;
    let inactive = note_events(alloc, &mut draft.names, &parts.inactive)?;
    let switch_entry = SwitchEntry {
        kind,
        listeners: Vec::new(alloc),
        confirms_playfield,
        active,
        inactive,
    };
    enter_switch(&mut draft.switches, number, switch_entry);
    Ok(())
}

/// The switch of this number becomes this one, and keeps its listeners.
fn enter_switch(switches: &mut Vec<SwitchEntry>, number: usize, switch_entry: SwitchEntry)
    ensures { EntersSwitch switches.old switches.new number switch_entry.kind switch_entry.confirms_playfield
        switch_entry.active.items switch_entry.inactive.items }
{
    if number >= switches.len() {
        return;
    }
    let entry = &mut switches[number];
    entry.kind = switch_entry.kind;
    entry.confirms_playfield = switch_entry.confirms_playfield;
    entry.active = switch_entry.active;
    entry.inactive = switch_entry.inactive;
}

// ---- coils

/// A coil, with its limits.
fn add_coil(
    alloc: Global,
    draft: &mut Draft,
    name: &[u8],
    limits: CoilLimits,
) -> Result<(), AllocError>
    ensures { OnOk result (Adds draft.old draft.new (coil name.now limits ∷ [])) }
{
    let coil = note_coil(alloc, &mut draft.names, &mut draft.coils, name)?;
    limit_coil(&mut draft.coils, coil.0 as usize, limits);
    Ok(())
}

/// The coil of this number gets these limits.
fn limit_coil(coils: &mut Vec<CoilLimits>, number: usize, limits: CoilLimits)
    ensures { LimitsCoil coils.old coils.new number limits }
{
    if number >= coils.len() {
        return;
    }
    coils[number] = limits;
}

// ---- the game

/// The rules of the game, with its events.
fn add_game(
    alloc: Global,
    draft: &mut Draft,
    min_balls: u32,
    balls_per_game: u32,
    max_players: u32,
) -> Result<(), AllocError>
    ensures { OnOk result (Adds draft.old draft.new (game min_balls balls_per_game max_players ∷ [])) }
{
    let events = game_events(alloc, &mut draft.names)?;
    draft.game = Some(GameRules {
        min_balls,
        balls_per_game,
        max_players,
        events,
    });
    Ok(())
}

/// The events of the game, in their order.
fn game_events(alloc: Global, names: &mut Names) -> Result<[EventId; 21], AllocError>
    ensures names { OnOk result (Notes names.old names.new (uses_of Events game_event_names)) }
    ensures events { IfOk result (IsNumbered names.old (uses_of Events game_event_names)
        (λ ns. map (event_of (ns Events)) game_event_names)) }
{
    let mut events = [EventId(0); 21];
    for place in 0..GAME_EVENT_NAMES.len() {
        events[place] = note_event(alloc, names, whole(game_event_name(place)))?;
    }
    Ok(events)
}

/// The name of the event of the game at this place.
fn game_event_name(place: usize) -> &'static [u8]
    requires { place < 21 }
    ensures { result.now ≡ slice_index_or game_event_names place [] }
{
    GAME_EVENT_NAMES[place]
}

// ---- modes

/// A mode, with its events.
fn add_mode(
    alloc: Global,
    draft: &mut Draft,
    name: &[u8],
    settings: ModeSettings,
) -> Result<(), AllocError>
    ensures { OnOk result (Adds draft.old draft.new (mode name.now (mode_settings_view settings.entry) ∷ [])) }
{
    let mode = Mode {
        priority: settings.priority,
        game: settings.game,
        holds_ball_end: settings.holds_ball_end,
        events: mode_events(alloc, &mut draft.names, name)?,
    };
    let name = Vec::from_slice(alloc, name)?;
    draft.modes.push(ModeEntry { name, mode })?;
    Ok(())
}

/// The events of the mode of this name.
fn mode_events(alloc: Global, names: &mut Names, name: &[u8]) -> Result<ModeEvents, AllocError>
    ensures names { OnOk result (Notes names.old names.new (uses_of Events (mode_event_names name.now))) }
    ensures events { IfOk result (IsNumbered names.old (uses_of Events (mode_event_names name.now))
        (λ ns. mode_events_of ns name.now)) }
{
    let will_start = note_event(alloc, names, mode_event_name(ModeEvent::WillStart, name))?;
    let starting = note_event(alloc, names, mode_event_name(ModeEvent::Starting, name))?;
    let started = note_event(alloc, names, mode_event_name(ModeEvent::Started, name))?;
    let stopping = note_event(alloc, names, mode_event_name(ModeEvent::Stopping, name))?;
    let stopped = note_event(alloc, names, mode_event_name(ModeEvent::Stopped, name))?;
    Ok(ModeEvents {
        will_start,
        starting,
        started,
        stopping,
        stopped,
    })
}

/// What starts and what stops the mode of this number.
fn add_controls(
    alloc: Global,
    draft: &mut Draft,
    whose: Whose,
    number: ModeId,
    controls: &[(HandledName, ModeControl)],
) -> Result<(), AllocError>
    ensures { OnOk result (Adds draft.old draft.new
        (control_parts (whose_view whose) number (controls_view controls.now))) }
{
    for each in controls {
        let target = control_target(number, each.1);
        add_binding(alloc, draft, whose, each.0, target)?;
    }
    Ok(())
}

/// What is done with the mode of this number.
fn control_target(mode: ModeId, control: ModeControl) -> Target
    ensures { result ≡ control_target mode control }
{
    match control {
        ModeControl::Start => Target::Start(mode),
        ModeControl::Stop => Target::Stop(mode),
    }
}

// ---- bindings and effect lists

/// Binds an event: it does this, under its condition.
fn add_binding(
    alloc: Global,
    draft: &mut Draft,
    whose: Whose,
    handled_name: HandledName,
    target: Target,
) -> Result<(), AllocError>
    ensures { OnOk result (AddsBinding draft.old draft.new (whose_view whose) (handled_event_view handled_name.entry)
        target) }
{
    let event = note_event(alloc, &mut draft.names, handled_name.event)?;
    let condition = note_condition(alloc, &mut draft.names, handled_name.condition)?;
    draft.bindings.push(Binding {
        event,
        owner: whose.owner,
        priority: whose.priority,
        condition,
        target,
    })?;
    Ok(())
}

/// A handler, with its effect list.
fn add_handler(
    alloc: Global,
    draft: &mut Draft,
    whose: Whose,
    handled_name: HandledName,
    effects: &[Effect],
) -> Result<(), AllocError>
    ensures { OnOk result (Adds draft.old draft.new
        (handler (whose_view whose) (handled_event_view handled_name.entry) (run (map effect_view effects.now)) ∷ [])) }
{
    let list = next_list(draft);
    let row = next_row(draft);
    add_binding(alloc, draft, whose, handled_name, Target::Run(list))?;
    add_list(alloc, draft, row, effects)
}

/// The number of the next effect list. No plan has so many that they cannot be counted.
fn next_list(draft: &Draft) -> ListId
    ensures { length draft.now.lists.items ≤ 4294967295 → result ≡ record { 0 = length draft.now.lists.items } }
{
    ListId(draft.lists.len().min(0xffff_ffff) as u32)
}

/// The number of the next row. A plan has at most 1,024 rows: a greater number is of no plan.
fn next_row(draft: &Draft) -> RowId
    ensures { length draft.now.rows.items ≤ 65535 → result ≡ record { 0 = length draft.now.rows.items } }
{
    RowId(as_kept(draft.rows.len()))
}

/// An effect list.
fn add_list(
    alloc: Global,
    draft: &mut Draft,
    row: RowId,
    effects: &[Effect],
) -> Result<(), AllocError>
    ensures { OnOk result (AddsLists draft.old draft.new row (map effect_view effects.now ∷ [])) }
{
    let actions = actions_of(alloc, &mut draft.names, &mut draft.coils, row, effects)?;
    draft.lists.push(actions)?;
    Ok(())
}

/// Effect lists of the device in this row.
fn add_lists(
    alloc: Global,
    draft: &mut Draft,
    row: RowId,
    lists: &EffectLists,
) -> Result<(), AllocError>
    ensures { OnOk result (AddsLists draft.old draft.new row lists.now) }
{
    for number in 0..lists.len() {
        add_list(alloc, draft, row, lists.list(number))?;
    }
    Ok(())
}

/// Each of the events does this with the device in the row of this number, which may come later.
fn add_seated(
    alloc: Global,
    draft: &mut Draft,
    whose: Whose,
    number: usize,
    event_acts: &[(HandledName, Act)],
) -> Result<(), AllocError>
    ensures { OnOk result (Adds draft.old draft.new
        (seated_parts (whose_view whose) number (acts_view event_acts.now))) }
{
    let row = RowId(as_kept(number));
    for each in event_acts {
        add_binding(alloc, draft, whose, each.0, Target::Act(row, each.1))?;
    }
    Ok(())
}

// ---- devices

/// A device, with its row, the switches to which it listens, the events that it handles, the other events that it
/// names, and its effect lists.
fn add_device(
    alloc: Global,
    draft: &mut Draft,
    parts: &RowParts,
    settings: Settings,
) -> Result<(), AllocError>
    ensures { OnOk result (Adds draft.old draft.new (device_in parts.now settings ∷ [])) }
{
    let row = next_row(draft);
    let first = next_list(draft);
    draft.rows.push(DeviceRow {
        number: row,
        owner: parts.whose.owner,
        settings,
    })?;
    draft.row_lists.push(first)?;
    add_listeners(alloc, draft, row, &parts.listens)?;
    add_acts(alloc, draft, parts.whose, row, &parts.event_acts)?;
    note_mentioned(alloc, &mut draft.names, &parts.other_mentions)?;
    add_lists(alloc, draft, row, &parts.lists)
}

/// The device in this row listens to these switches, in the order of their numbers in the device.
fn add_listeners(
    alloc: Global,
    draft: &mut Draft,
    row: RowId,
    listens: &[&[u8]],
) -> Result<(), AllocError>
    ensures { OnOk result (AddsListeners draft.old draft.new row (bytes_view listens.now)) }
{
    for switch in 0..listens.len() {
        let number = note_switch(
            alloc,
            &mut draft.names,
            &mut draft.switches,
            listens[switch],
        )?;
        add_listener(&mut draft.switches, number, Listener { row, switch })?;
    }
    Ok(())
}

/// One more listens to the switch of this number.
fn add_listener(
    switches: &mut Vec<SwitchEntry>,
    number: usize,
    listener: Listener,
) -> Result<(), AllocError>
    ensures { OnOk result (ListensTo switches.old switches.new number listener) }
{
    if number >= switches.len() {
        return Ok(());
    }
    switches[number].listeners.push(listener)?;
    Ok(())
}

/// Each of the events does this with the device in the row.
fn add_acts(
    alloc: Global,
    draft: &mut Draft,
    whose: Whose,
    row: RowId,
    event_acts: &[(HandledName, Act)],
) -> Result<(), AllocError>
    ensures { OnOk result (AddsActs draft.old draft.new (whose_view whose) row (acts_view event_acts.now)) }
{
    for each in event_acts {
        add_binding(alloc, draft, whose, each.0, Target::Act(row, each.1))?;
    }
    Ok(())
}
