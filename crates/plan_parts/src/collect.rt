//! What a row of a configuration gives to a plan, by names.

ghost use Rattle.std.specs.Prelude.{◌≡◌, ◌++◌, map, OnOk};
ghost use Rattle.mpf_sections.specs.View.{mode_settings_view, name_view, switch_view};
ghost use Rattle.plan_parts.specs.Gives.{Gives, alone_gives, entry_gives, event_player_gives, game_gives};
ghost use Rattle.plan_parts.specs.Gives.{machine_entry_gives, mode_gives, player_entry_gives, switch_gives};
ghost use Rattle.plan_parts.specs.Parts.{active_posts, confirms, inactive_posts, is_quick, kind_of, stops_at_ball_end};
ghost use Rattle.plan_parts.specs.Parts.{stops_at_game_end, tag_event};
ghost use Rattle.plan_parts.specs.RowViews.{controls_view, names_view, parts_at, parts_in, stops_where, text_view};
ghost use Rattle.plan_rows.specs.View.{row_view};

use crate::collect_balls::collect_ball_device;
use crate::collect_coils::{collect_coil, collect_coil_player, collect_coil_rule};
use crate::collect_devices::collect_device;
use crate::collect_handled::{collect_controls, collect_names};
use crate::collect_shots::{collect_group, collect_shot};
use crate::collect_variables::collect_variable_player;
use crate::effects::post_each;
use crate::names::{NamePieces, join_pieces, whole};
use crate::row_parts::{HandledName, ModeControl, RowHead, RowParts, RowText, Whose, add};
use machine_definitions::Definitions;
use mpf_config::{
    COIL_PLAYER_NAME, COILS_NAME, Debounce, EVENT_PLAYER_NAME, Entry, EventPlayer, GAME_NAME,
    GameSettings, ModeSettings, Name, PlayerEntry, SWITCHES_NAME, Switch, VARIABLE_PLAYER_NAME,
    as_ball_device, as_coil, as_coil_player, as_event_player, as_game, as_shot, as_shot_group,
    as_switch, as_variable_player, mode_settings,
};
use mpf_sections::as_coil_rule;
use mpf_tables::TextKind;
use plan_rows::Row;
use plan_tables::entries::{ModeId, Owner, SwitchKind};
use std::alloc::AllocError;

/// Collects what a row of this text gives, in place of what was there. Names are borrowed from the configuration.
///
/// # Errors
///
/// Memory ran out.
pub fn collect_row<'a>(
    parts: &mut RowParts<'a>,
    definitions: &Definitions<'_>,
    text: RowText,
    row: Row<'_, 'a>,
) -> Result<(), AllocError>
    ensures { OnOk result (parts_in parts.new
        ≡ parts_at definitions.now.machine (text_view text) (row_view row.entry)) }
{
    parts.clear(text.whose);
    match row {
        Row::Entry(place, section, entry) => {
            collect_entry(parts, definitions, place, section, entry)
        }
        Row::Alone(place, section, entry) => {
            collect_alone(parts, definitions, place, section, entry);
            Ok(())
        }
        Row::Shot(_, entry, seat, known, profile) => {
            collect_shot(parts, as_shot(entry), seat, known, profile)
        }
        Row::Group(_, entry, members) => collect_group(parts, as_shot_group(entry), members),
        Row::BallDevice(entry, to) => {
            collect_ball_device(parts, definitions, as_ball_device(entry), to)
        }
        Row::Player(_, section, player) => collect_player(parts, definitions, section, player),
        Row::Mode(name, sections) => {
            collect_mode(parts, ModeId(text.modes), name, mode_settings(sections))
        }
    }
}

/// What an entry gives. Only the machine text has switches, coils and coil rules.
#[tactic(auto, unfolding(crate::specs::Parts::entry_parts))]
fn collect_entry<'a>(
    parts: &mut RowParts<'a>,
    definitions: &Definitions<'_>,
    place: TextKind,
    section: &[u8],
    entry: &'a Entry,
) -> Result<(), AllocError>
    ensures { OnOk result (Gives parts.old parts.new
        (entry_gives definitions.now.machine place section.now entry.now)) }
{
    match place {
        TextKind::Machine => collect_machine_entry(parts, definitions, section, entry),
        TextKind::Mode => collect_device(parts, section, entry),
    }
}

/// What an entry of the machine text gives.
#[tactic(auto, unfolding(crate::specs::Parts::machine_entry_parts))]
fn collect_machine_entry<'a>(
    parts: &mut RowParts<'a>,
    definitions: &Definitions<'_>,
    section: &[u8],
    entry: &'a Entry,
) -> Result<(), AllocError>
    ensures { OnOk result (Gives parts.old parts.new
        (machine_entry_gives definitions.now.machine section.now entry.now)) }
{
    if section == COILS_NAME {
        collect_coil(parts, as_coil(entry));
        return Ok(());
    }
    if section == SWITCHES_NAME {
        return collect_switch(parts, definitions, as_switch(entry));
    }
    match as_coil_rule(section, entry) {
        Some(rule) => collect_coil_rule(parts, definitions, rule),
        None => collect_device(parts, section, entry),
    }
}

/// What the one entry of a section gives. Only the machine text has a game.
#[tactic(auto, unfolding(crate::specs::Parts::alone_parts))]
fn collect_alone(
    parts: &mut RowParts<'_>,
    definitions: &Definitions<'_>,
    place: TextKind,
    section: &[u8],
    entry: &Entry,
)
    ensures { Gives parts.old parts.new (alone_gives definitions.now.machine place section.now entry.now) }
{
    if let TextKind::Machine = place {
        if section == GAME_NAME {
            collect_game(parts, definitions, as_game(entry));
        }
    }
}

/// What an entry of a player gives.
#[tactic(auto, unfolding(crate::specs::Parts::player_parts))]
fn collect_player<'a>(
    parts: &mut RowParts<'a>,
    definitions: &Definitions<'_>,
    section: &[u8],
    player: &'a PlayerEntry,
) -> Result<(), AllocError>
    ensures { OnOk result (Gives parts.old parts.new
        (player_entry_gives definitions.now.machine section.now player.now)) }
{
    if section == EVENT_PLAYER_NAME {
        return collect_event_player(parts, as_event_player(player));
    }
    if section == COIL_PLAYER_NAME {
        return collect_coil_player(parts, definitions, as_coil_player(player));
    }
    if section == VARIABLE_PLAYER_NAME {
        return collect_variable_player(parts, as_variable_player(player));
    }
    Ok(())
}

// ---- `switches`

/// A switch, with what it posts.
fn collect_switch<'a>(
    parts: &mut RowParts<'a>,
    definitions: &Definitions<'_>,
    row: Switch<'a>,
) -> Result<(), AllocError>
    ensures { OnOk result (Gives parts.old parts.new (switch_gives definitions.now.machine row.entry)) }
{
    parts.head = RowHead::Switch {
        name: &row.name.text,
        kind: kind_of(definitions, row),
        confirms_playfield: confirms(row.tags),
    };
    collect_active(&mut parts.active, row)?;
    collect_inactive(&mut parts.inactive, row)
}

/// How the switch of a row is read.
fn kind_of(definitions: &Definitions<'_>, row: Switch<'_>) -> SwitchKind
    ensures { result ≡ kind_of definitions.now.machine (switch_view row.entry) }
{
    SwitchKind {
        contact: row.contact,
        quick: is_quick(definitions, &row.name.text, row.debounce),
    }
}

/// The tag of switches that a ball on the playfield presses.
const PLAYFIELD_ACTIVE: &[u8] = b"playfield_active";

/// Whether a ball that presses a switch with these tags is on the playfield.
fn confirms(tags: &[Name]) -> bool
    ensures { result ≡ confirms (map name_view tags.now) }
{
    tags.iter()
        .any(|tag| tag.text.as_slice() == PLAYFIELD_ACTIVE)
}

/// Whether a raw level of the switch of this name is accepted at once, and not only after it has lasted 5 ms.
fn is_quick(definitions: &Definitions<'_>, name: &[u8], debounce: Debounce) -> bool
    ensures { result ≡ is_quick definitions.now.machine name.now debounce }
{
    match debounce {
        Debounce::Auto => definitions.makes_quick(name),
        Debounce::Quick => true,
        Debounce::Normal => false,
    }
}

/// What the switch of a row posts when it becomes active.
fn collect_active<'a>(active: &mut Vec<NamePieces<'a>>, row: Switch<'a>) -> Result<(), AllocError>
    ensures { OnOk result (names_view active.new.items
        ≡ names_view active.old.items ++ active_posts (switch_view row.entry)) }
{
    add(active, join_pieces(&row.name.text, b"", b"_active"))?;
    collect_tags(active, row.tags)?;
    collect_names(active, row.activation_events)
}

/// The events of tags.
fn collect_tags<'a>(active: &mut Vec<NamePieces<'a>>, tags: &'a [Name]) -> Result<(), AllocError>
    ensures { OnOk result (names_view active.new.items
        ≡ names_view active.old.items ++ map tag_event (map name_view tags.now)) }
{
    for tag in tags {
        add(active, join_pieces(b"sw_", b"", &tag.text))?;
    }
    Ok(())
}

/// What the switch of a row posts when it becomes inactive.
fn collect_inactive<'a>(
    inactive: &mut Vec<NamePieces<'a>>,
    row: Switch<'a>,
) -> Result<(), AllocError>
    ensures { OnOk result (names_view inactive.new.items
        ≡ names_view inactive.old.items ++ inactive_posts (switch_view row.entry)) }
{
    add(inactive, join_pieces(&row.name.text, b"", b"_inactive"))?;
    collect_names(inactive, row.deactivation_events)
}

// ---- `event_player`

/// A handler of its event, which posts others.
fn collect_event_player<'a>(
    parts: &mut RowParts<'a>,
    row: EventPlayer<'a>,
) -> Result<(), AllocError>
    ensures { OnOk result (Gives parts.old parts.new (event_player_gives row.entry)) }
{
    parts.head = RowHead::Handler(HandledName::as_written(row.event));
    parts.lists.begin()?;
    post_each(&mut parts.lists, row.posts)
}

// ---- the game

/// The game, with its rules.
fn collect_game(parts: &mut RowParts<'_>, definitions: &Definitions<'_>, row: GameSettings)
    ensures { Gives parts.old parts.new (game_gives definitions.now.machine row) }
{
    parts.head = RowHead::Game {
        min_balls: definitions.min_balls(),
        balls_per_game: row.balls_per_game,
        max_players: row.max_players,
    };
}

// ---- modes

/// A mode of this number, and the events that start and stop it. The machine handles them, at the mode's priority.
#[tactic(auto, unfolding(crate::specs::Parts::mode_parts))]
fn collect_mode<'a>(
    parts: &mut RowParts<'a>,
    number: ModeId,
    name: &'a [u8],
    settings: ModeSettings<'a>,
) -> Result<(), AllocError>
    ensures { OnOk result (Gives parts.old parts.new (mode_gives number name.now settings.entry)) }
{
    parts.head = RowHead::Mode(number, name, settings);
    parts.whose = Whose {
        owner: Owner::Machine,
        priority: settings.priority,
    };
    collect_controls(&mut parts.controls, ModeControl::Start, settings.starts)?;
    collect_controls(&mut parts.controls, ModeControl::Stop, settings.stops)?;
    let at_ball_end = stops_at_ball_end(&settings);
    let at_game_end = stops_at_game_end(&settings);
    collect_stop_where(&mut parts.controls, at_ball_end, b"ball_ending")?;
    collect_stop_where(&mut parts.controls, at_game_end, b"game_ending")
}

/// Whether a mode stops at the end of the ball: not if it may hold that end.
fn stops_at_ball_end(settings: &ModeSettings<'_>) -> bool
    ensures { result ≡ stops_at_ball_end (mode_settings_view settings.now) }
{
    settings.stops_with_ball && !settings.holds_ball_end
}

/// Whether a mode stops at the end of the game: not if it may hold the end of the ball.
fn stops_at_game_end(settings: &ModeSettings<'_>) -> bool
    ensures { result ≡ stops_at_game_end (mode_settings_view settings.now) }
{
    settings.game && !settings.holds_ball_end
}

/// The event stops a mode, if `holds`.
fn collect_stop_where<'a>(
    controls: &mut Vec<(HandledName<'a>, ModeControl)>,
    holds: bool,
    event: &'a [u8],
) -> Result<(), AllocError>
    ensures { OnOk result (controls_view controls.new.items
        ≡ controls_view controls.old.items ++ stops_where holds event.now) }
{
    if holds {
        return add(
            controls,
            (HandledName::always(whole(event)), ModeControl::Stop),
        );
    }
    Ok(())
}
