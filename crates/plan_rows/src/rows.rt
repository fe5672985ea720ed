//! The rows of a configuration, in plan order.

ghost use Rattle.std.specs.Prelude.{◌≡◌, IfOk, OnOk};
ghost use Rattle.std.specs.Str.{bytes_eq};
ghost use Rattle.mpf_sections.specs.TypedShots.{shots_name, shot_groups_name};
ghost use Rattle.mpf_sections.specs.TypedBalls.{ball_devices_name};
ghost use Rattle.plan_rows.specs.Rows.{rows_of};
ghost use Rattle.plan_rows.specs.View.{row_view, row_list_view};
ghost use Rattle.plan_rows.specs.Gained.{Gains, row_of_ball_device, rows_of_mode, rows_of_players, rows_after_sections};
ghost use Rattle.plan_rows.specs.Gained.{rows_after_mode, rows_of_text, rows_of_entries, row_of_entry, row_of_other};
ghost use Rattle.plan_rows.specs.Gained.{rows_of_section, rows_of_sections, row_of_shot};

use crate::destination::Destination;
use crate::members::{Members, members_of};
use crate::seats::{Seat, Seats, seats_of};
use machine_definitions::{Definitions, Profile};
use mpf_config::config::ModeText;
use mpf_config::{
    BALL_DEVICES_NAME, Content, Entry, PlayerEntry, SHOT_GROUPS_NAME, SHOTS_NAME, Section,
    as_ball_device, as_shot, as_shot_group,
};
use mpf_tables::TextKind;
use std::alloc::{AllocError, Global};

/// A row of a text.
#[derive(Clone, Copy)]
pub enum Row<'d, 'a> {
    /// An entry in the section of this name, in a text of this kind.
    Entry(TextKind, &'a [u8], &'a Entry),
    /// The one entry that the section of this name is, in a text of this kind.
    Alone(TextKind, &'a [u8], &'a Entry),
    /// A shot, with its seat if it has one, whether its profile is defined, and its profile.
    Shot(TextKind, &'a Entry, Option<Seat>, bool, &'d Profile<'a>),
    /// A group, with what is known of its shots.
    Group(TextKind, &'a Entry, Members<'d, 'a>),
    /// A ball device of the machine text, with where it ejects its balls to.
    BallDevice(&'a Entry, Destination),
    /// An entry of a player in the section of this name, in a text of this kind.
    Player(TextKind, &'a [u8], &'a PlayerEntry),
    /// A mode by its name, with the sections of its text.
    Mode(&'a [u8], &'a [Section]),
}

/// The rows of the machine text, and then those of one mode after the other, in the order of the
/// modes. The rows of a text come as its sections and entries are written; a mode itself comes
/// before the rows of its text.
///
/// # Errors
///
/// Memory ran out.
pub fn rows_of<'d, 'a>(
    alloc: Global,
    definitions: &'d Definitions<'a>,
) -> Result<Vec<Row<'d, 'a>>, AllocError>
    ensures { IfOk result (λ rows. row_list_view rows.items ≡ rows_of definitions.now) }
{
    let config = definitions.config();
    let modes: &'a [ModeText] = config.modes.as_slice();
    let mut rows: Vec<Row<'d, 'a>> = Vec::new(alloc);
    let mut before = add_text(
        alloc,
        &mut rows,
        definitions,
        TextKind::Machine,
        0,
        &config.machine.sections,
    )?;
    for mode in modes {
        before = add_mode(alloc, &mut rows, definitions, before, mode)?;
    }
    Ok(rows)
}

/// Adds a mode, and then the rows of its text, before which come so many rows of devices. Returns
/// how many come before the next text.
fn add_mode<'d, 'a>(
    alloc: Global,
    rows: &mut Vec<Row<'d, 'a>>,
    definitions: &'d Definitions<'a>,
    before: usize,
    mode: &'a ModeText,
) -> Result<usize, AllocError>
    ensures rows { OnOk result (Gains rows.old rows.new (rows_of_mode definitions.now before mode.now)) }
    ensures after { IfOk result (λ after. after ≡ rows_after_mode before mode.now) }
{
    let sections = mode.sections.as_slice();
    rows.push(Row::Mode(&mode.name, sections))?;
    add_text(alloc, rows, definitions, TextKind::Mode, before, sections)
}

/// Adds the rows of a text, before which come so many rows of devices. Returns how many come before
/// the next text.
fn add_text<'d, 'a>(
    alloc: Global,
    rows: &mut Vec<Row<'d, 'a>>,
    definitions: &'d Definitions<'a>,
    place: TextKind,
    before: usize,
    sections: &'a [Section],
) -> Result<usize, AllocError>
    ensures rows { OnOk result (Gains rows.old rows.new (rows_of_text definitions.now place before sections.now)) }
    ensures after { IfOk result (λ after. after ≡ rows_after_sections place before sections.now) }
{
    let (seats, after) = seats_of(alloc, definitions.config().hashing, place, before, sections)?;
    add_sections(rows, definitions, place, &seats, sections)?;
    Ok(after)
}

/// Adds the rows of sections, as written.
fn add_sections<'d, 'a>(
    rows: &mut Vec<Row<'d, 'a>>,
    definitions: &'d Definitions<'a>,
    place: TextKind,
    seats: &Seats<'a>,
    sections: &'a [Section],
) -> Result<(), AllocError>
    ensures { OnOk result (Gains rows.old rows.new (rows_of_sections definitions.now place seats.now sections.now)) }
{
    for section in sections {
        add_rows(rows, definitions, place, seats, section)?;
    }
    Ok(())
}

fn add_rows<'d, 'a>(
    rows: &mut Vec<Row<'d, 'a>>,
    definitions: &'d Definitions<'a>,
    place: TextKind,
    seats: &Seats<'a>,
    section: &'a Section,
) -> Result<(), AllocError>
    ensures { OnOk result (Gains rows.old rows.new (rows_of_section definitions.now place seats.now section.now)) }
{
    match &section.content {
        Content::Entries(entries) => {
            add_entries(rows, definitions, place, seats, &section.name, entries)
        }
        Content::Players(players) => add_players(rows, place, &section.name, players),
        Content::Entry(entry) => {
            rows.push(Row::Alone(place, &section.name, entry))?;
            Ok(())
        }
        Content::Names(_) => Ok(()),
    }
}

fn add_entries<'d, 'a>(
    rows: &mut Vec<Row<'d, 'a>>,
    definitions: &'d Definitions<'a>,
    place: TextKind,
    seats: &Seats<'a>,
    section: &'a [u8],
    entries: &'a [Entry],
) -> Result<(), AllocError>
    ensures { OnOk result (Gains rows.old rows.new
        (rows_of_entries definitions.now place seats.now section.now entries.now)) }
{
    rows.reserve(entries.len())?;
    let kind_of_section = section_of(section);
    for entry in entries {
        rows.push(entry_row(definitions, place, seats, kind_of_section, entry))?;
    }
    Ok(())
}

fn add_players<'d, 'a>(
    rows: &mut Vec<Row<'d, 'a>>,
    place: TextKind,
    section: &'a [u8],
    players: &'a [PlayerEntry],
) -> Result<(), AllocError>
    ensures { OnOk result (Gains rows.old rows.new (rows_of_players place section.now players.now)) }
{
    rows.reserve(players.len())?;
    for player in players {
        rows.push(Row::Player(place, section, player))?;
    }
    Ok(())
}

/// A section by its name, and whether its entries are of a kind whose rows need other entries. This
/// is asked once for all its entries.
#[derive(Clone, Copy)]
struct EntrySection<'a> {
    name: &'a [u8],
    has_shots: bool,
    has_groups: bool,
    has_ball_devices: bool,
    ghost shots: { has_shots ≡ bytes_eq name.now shots_name },
    ghost groups: { has_groups ≡ bytes_eq name.now shot_groups_name },
    ghost ball_devices: { has_ball_devices ≡ bytes_eq name.now ball_devices_name },
}

fn section_of(name: &[u8]) -> EntrySection<'_>
    ensures { result.name.now ≡ name.now }
{
    EntrySection {
        name,
        has_shots: name == SHOTS_NAME,
        has_groups: name == SHOT_GROUPS_NAME,
        has_ball_devices: name == BALL_DEVICES_NAME,
    }
}

/// The row of an entry in this section.
fn entry_row<'d, 'a>(
    definitions: &'d Definitions<'a>,
    place: TextKind,
    seats: &Seats<'a>,
    section: EntrySection<'a>,
    entry: &'a Entry,
) -> Row<'d, 'a>
    ensures { row_view result ≡ row_of_entry definitions.now place seats.now section.entry.name.now entry.now }
{
    if section.has_shots {
        return shot_row(definitions, place, seats, entry);
    }
    if section.has_groups {
        return Row::Group(place, entry, members_of(definitions, as_shot_group(entry)));
    }
    other_row(place, seats, section, entry)
}

/// That of a shot.
fn shot_row<'d, 'a>(
    definitions: &'d Definitions<'a>,
    place: TextKind,
    seats: &Seats<'a>,
    entry: &'a Entry,
) -> Row<'d, 'a>
    ensures { row_view result ≡ row_of_shot definitions.now place seats.now entry.now }
{
    let shot = as_shot(entry);
    let profile = shot.profile.text;
    Row::Shot(
        place,
        entry,
        seats.shots.get(shot.name.text.as_slice()).copied(),
        definitions.has_profile(profile),
        definitions.profile(profile),
    )
}

/// That of an entry that is neither a shot nor a group.
fn other_row<'d, 'a>(
    place: TextKind,
    seats: &Seats<'a>,
    section: EntrySection<'a>,
    entry: &'a Entry,
) -> Row<'d, 'a>
    ensures { row_view result ≡ row_of_other place seats.now section.entry.name.now entry.now }
{
    match place {
        TextKind::Machine if section.has_ball_devices => ball_device_row(seats, entry),
        _ => Row::Entry(place, section.name, entry),
    }
}

/// That of a ball device.
fn ball_device_row<'d, 'a>(seats: &Seats<'a>, entry: &'a Entry) -> Row<'d, 'a>
    ensures { row_view result ≡ row_of_ball_device seats.now entry.now }
{
    Row::BallDevice(entry, seats.destination(as_ball_device(entry).target.text))
}
