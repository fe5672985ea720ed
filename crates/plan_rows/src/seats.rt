//! The row of each shot in a plan, and the row of each ball device.
//!
//! A group has a row, and its shots have seats in it. A shot that no group of its text lists has a
//! row of its own.

ghost use Rattle.std.specs.Prelude.{◌≡◌, IfOk, OnOk};
ghost use Rattle.machine_definitions.specs.Found.{is_found, GainsNames};
ghost use Rattle.yaml_subset.specs.Keys.{is_among};
ghost use Rattle.mpf_tables.specs.declared.tables.TextKind.{TextKind};
ghost use Rattle.plan_rows.specs.Seats.{row_sections, has_row, rows_after, rows_after_all, entry_seats, entry_ball_row};
ghost use Rattle.plan_rows.specs.Seats.{row_or_unknown};
ghost use Rattle.plan_rows.specs.View.{found_row, found_destination};
ghost use Rattle.plan_rows.specs.Gained.{all_devices_given, all_entries, all_seats_given, GainsDeviceRows, GainsSeats};
ghost use Rattle.plan_rows.specs.Gained.{HasDestinations, HasGrouped, HasSeats, lists_shot_in, is_named_in};
ghost use Rattle.plan_rows.specs.Gained.{named_entries, named_entry, rows_after_sections, seats_of_names};
ghost use Rattle.plan_rows.specs.Gained.{devices_given, seats_given};

use crate::destination::Destination;
use indexmap::{IndexMap, IndexSet};
use machine_definitions::by_name::{ByName, Names};
use mpf_config::{
    ACCRUALS_NAME, BALL_DEVICES_NAME, BALL_SAVES_NAME, COUNTERS_NAME, Entry, MULTIBALLS_NAME, Name,
    PLAYFIELD, SEQUENCES_NAME, SHOT_GROUPS_NAME, SHOTS_NAME, Section, TIMERS_NAME, as_shot_group,
};
use mpf_sections::coil_rules::COIL_RULE_SECTIONS;
use mpf_tables::TextKind;
use section_tables::is_one_of;
use std::alloc::{AllocError, Global};
use yaml_subset::keys::KeyHashing;

/// The seat of a shot in a group.
#[derive(Clone, Copy)]
pub struct Seat {
    /// The number of the group's row.
    pub row: usize,
    /// The number of the shot in the group, from 0.
    pub shot: usize,
}

/// The seats of the shots of a text, and the numbers of the rows of its ball devices, by their names.
#[derive(Drop)]
pub(crate) struct Seats<'a> {
    pub(crate) shots: ByName<'a, Seat>,
    pub(crate) devices: ByName<'a, usize>,
}

impl Seats<'_> {
    /// Where balls go that are ejected to what has this name.
    pub(crate) fn destination(&self, name: &[u8]) -> Destination
        ensures { result ≡ found_destination self.now.devices name.now }
    {
        if name == PLAYFIELD {
            return Destination::Playfield;
        }
        row_or_unknown(self.row(name))
    }

    /// The number of the row of the ball device of this name, if there is one.
    fn row(&self, name: &[u8]) -> Option<usize>
        ensures { result ≡ found_row self.now.devices name.now }
    {
        self.devices.get(name).copied()
    }
}

fn row_or_unknown(row: Option<usize>) -> Destination
    ensures { result ≡ row_or_unknown row }
{
    match row {
        Some(row) => Destination::Device(row),
        None => Destination::Unknown,
    }
}

/// The sections whose entries each have a row, beside those of coil rules: first the one that the
/// machine text alone can have.
const ROW_SECTIONS: [&[u8]; 8] = [
    BALL_DEVICES_NAME,
    COUNTERS_NAME,
    ACCRUALS_NAME,
    SEQUENCES_NAME,
    TIMERS_NAME,
    BALL_SAVES_NAME,
    MULTIBALLS_NAME,
    SHOT_GROUPS_NAME,
];

/// The seats of a text, if so many rows come before it, and how many come before the next text.
///
/// # Errors
///
/// Memory ran out.
pub(crate) fn seats_of<'a>(
    alloc: Global,
    hashing: KeyHashing,
    place: TextKind,
    before: usize,
    sections: &'a [Section],
) -> Result<(Seats<'a>, usize), AllocError>
    ensures seats { IfOk result (λ r. HasSeats place before sections.now r.0) }
    ensures destinations { IfOk result (λ r. HasDestinations place before sections.now r.0) }
    ensures rows { IfOk result (λ r. r.1 ≡ rows_after_sections place before sections.now) }
{
    let group_shots = grouped_shots(alloc, hashing, sections)?;
    let shots: ByName<'a, Seat> = IndexMap::with_hasher(alloc, hashing);
    let devices: ByName<'a, usize> = IndexMap::with_hasher(alloc, hashing);
    let mut seats: Seats<'a> = Seats { shots, devices };
    let rows = add_sections(&mut seats, place, &group_shots, before, sections)?;
    Ok((seats, rows))
}

/// Adds the seats of sections, if so many rows come before them. Returns how many come before what
/// comes after them.
fn add_sections<'a>(
    seats: &mut Seats<'a>,
    place: TextKind,
    group_shots: &Names<'a>,
    before: usize,
    sections: &'a [Section],
) -> Result<usize, AllocError>
    ensures shots { OnOk result (GainsSeats seats.old.shots seats.new.shots
        (all_seats_given place group_shots.now before sections.now)) }
    ensures devices { OnOk result (GainsDeviceRows seats.old.devices seats.new.devices
        (all_devices_given place group_shots.now before sections.now)) }
    ensures rows { IfOk result (λ rows. rows
        ≡ rows_after_all place (is_found group_shots.now) before (all_entries sections.now)) }
{
    let mut rows = before;
    for section in sections {
        rows = add_section(seats, place, group_shots, rows, section)?;
    }
    Ok(rows)
}

/// Adds the seats of a section, if so many rows come before it. Returns how many come before the
/// next one.
fn add_section<'a>(
    seats: &mut Seats<'a>,
    place: TextKind,
    group_shots: &Names<'a>,
    before: usize,
    section: &'a Section,
) -> Result<usize, AllocError>
    ensures shots { OnOk result (GainsSeats seats.old.shots seats.new.shots
        (seats_given place group_shots.now before section.now)) }
    ensures devices { OnOk result (GainsDeviceRows seats.old.devices seats.new.devices
        (devices_given place group_shots.now before section.now)) }
    ensures rows { IfOk result (λ rows. rows
        ≡ rows_after_all place (is_found group_shots.now) before (named_entries section.now)) }
{
    let takes_rows = is_rowed(place, &section.name);
    let mut rows = before;
    for entry in section.content.entries() {
        add_entry(seats, rows, &section.name, entry)?;
        rows = rows_after(takes_rows, group_shots, rows, &section.name, entry)?;
    }
    Ok(rows)
}

/// Adds the seats that an entry has, or the row of a ball device, if so many rows come before it.
fn add_entry<'a>(
    seats: &mut Seats<'a>,
    before: usize,
    section: &[u8],
    entry: &'a Entry,
) -> Result<(), AllocError>
    ensures shots { OnOk result (GainsSeats seats.old.shots seats.new.shots
        (entry_seats before (named_entry section.now entry.now))) }
    ensures devices { OnOk result (GainsDeviceRows seats.old.devices seats.new.devices
        (entry_ball_row before (named_entry section.now entry.now))) }
{
    add_group(&mut seats.shots, before, section, entry)?;
    add_ball_device(&mut seats.devices, before, section, entry)
}

/// Adds the seats that an entry has, if so many rows come before it.
fn add_group<'a>(
    seats: &mut ByName<'a, Seat>,
    before: usize,
    section: &[u8],
    entry: &'a Entry,
) -> Result<(), AllocError>
    ensures { OnOk result (GainsSeats seats.old seats.new (entry_seats before (named_entry section.now entry.now))) }
{
    if section == SHOT_GROUPS_NAME {
        return add_seats(seats, before, as_shot_group(entry).shots);
    }
    Ok(())
}

/// Adds the row of an entry that is a ball device, if so many rows come before it.
fn add_ball_device<'a>(
    rows: &mut ByName<'a, usize>,
    before: usize,
    section: &[u8],
    entry: &'a Entry,
) -> Result<(), AllocError>
    ensures { OnOk result (GainsDeviceRows rows.old rows.new
        (entry_ball_row before (named_entry section.now entry.now))) }
{
    if section == BALL_DEVICES_NAME {
        rows.insert(&entry.name.text, before)?;
    }
    Ok(())
}

/// Adds the seats of the shots that a group lists, whose row has this number.
fn add_seats<'a>(
    seats: &mut ByName<'a, Seat>,
    row: usize,
    shots: &'a [Name],
) -> Result<(), AllocError>
    ensures { OnOk result (GainsSeats seats.old seats.new (seats_of_names row shots.now)) }
{
    for shot in 0..shots.len() {
        seats.insert(&shots[shot].text, Seat { row, shot })?;
    }
    Ok(())
}

/// How many rows come before what comes after this entry, if so many come before it, and `takes_rows` says whether
/// other entries than shots have rows in its section. No memory holds so many entries that they cannot be counted.
fn rows_after(
    takes_rows: bool,
    group_shots: &Names<'_>,
    before: usize,
    section: &[u8],
    entry: &Entry,
) -> Result<usize, AllocError>
    ensures { IfOk result (λ rows. (place : TextKind) → takes_rows ≡ is_among (row_sections place) section.now
        → rows ≡ rows_after place (is_found group_shots.now) before (named_entry section.now entry.now)) }
{
    if has_row(takes_rows, group_shots, section, entry) {
        return before.checked_add(1).ok_or(AllocError);
    }
    Ok(before)
}

/// Whether an entry has a row, if these shots are in groups of its text, and `takes_rows` says whether other entries
/// than shots have rows in its section.
fn has_row(takes_rows: bool, group_shots: &Names<'_>, section: &[u8], entry: &Entry) -> bool
    ensures { (place : TextKind) → takes_rows ≡ is_among (row_sections place) section.now
        → result ≡ has_row place (is_found group_shots.now) (named_entry section.now entry.now) }
{
    if section == SHOTS_NAME {
        return !group_shots.contains(entry.name.text.as_slice());
    }
    takes_rows
}

/// Whether the entries of a section of this name have rows, if it is not that of shots.
fn is_rowed(place: TextKind, section: &[u8]) -> bool
    ensures { result ≡ is_among (row_sections place) section.now }
{
    match place {
        TextKind::Machine => {
            is_one_of(&COIL_RULE_SECTIONS, section) || is_one_of(&ROW_SECTIONS, section)
        }
        TextKind::Mode => is_one_of(&ROW_SECTIONS[1..], section),
    }
}

// ---- shots in groups

/// The shots that the groups of a text list.
#[tactic(auto, unfolding(mpf_sections::specs::TypedShots::shot_groups_in))]
fn grouped_shots<'a>(
    alloc: Global,
    hashing: KeyHashing,
    sections: &'a [Section],
) -> Result<Names<'a>, AllocError>
    ensures { IfOk result (λ names. HasGrouped sections.now names) }
{
    let mut names = IndexSet::with_hasher(alloc, hashing);
    for section in sections {
        take_groups(&mut names, section.entries_of(SHOT_GROUPS_NAME))?;
    }
    Ok(names)
}

fn take_groups<'a>(names: &mut Names<'a>, groups: &'a [Entry]) -> Result<(), AllocError>
    ensures { OnOk result (GainsNames names.old names.new (lists_shot_in groups.now)) }
{
    for group in groups {
        take_shots(names, as_shot_group(group).shots)?;
    }
    Ok(())
}

fn take_shots<'a>(names: &mut Names<'a>, shots: &'a [Name]) -> Result<(), AllocError>
    ensures { OnOk result (GainsNames names.old names.new (is_named_in shots.now)) }
{
    for shot in shots {
        names.insert(&shot.text)?;
    }
    Ok(())
}
