//! What is wrong with shots, and with the shots that groups list.

ghost use Rattle.std.specs.Prelude.{◌≡◌, ℕ, [], true, map, option_map, IfOk, OnOk};
ghost use Rattle.mpf_sections.specs.View.{name_view, shot_view};
ghost use Rattle.machine_definitions.specs.Found.{is_found, GainsNames};
ghost use Rattle.row_faults.specs.Collected.{Gains};
ghost use Rattle.row_faults.specs.ShotFaults.{first_shot, are_of_two_profiles};
ghost use Rattle.row_faults.specs.FaultsOf.{HasOwnShots, HasShotsForGroups, Takes, faults_of_listed, faults_of_profile};
ghost use Rattle.row_faults.specs.FaultsOf.{faults_of_shot, faults_of_shot_switch, faults_of_shots, listed_by_group};
ghost use Rattle.row_faults.specs.FaultsOf.{defines_shot, groups_among, is_misplaced_name, names_listed};
ghost use Rattle.row_faults.specs.FaultsOf.{listed_by_section};

use crate::as_written::{NamedThing, add_as_written};
use crate::coil_faults::add_switch_name;
use crate::collector::{Faults, add_if, at};
use crate::fault::RowFaultKind;
use indexmap::IndexSet;
use machine_definitions::Definitions;
use machine_definitions::by_name::Names;
use mpf_config::{Entry, Name, NameAt, Section, Shot, ShotGroup, as_shot, as_shot_group};
use mpf_sections::shots::{PROFILE, SWITCH};
use mpf_tables::tables::{SHOT_GROUPS_NAME, SHOTS_NAME};
use std::alloc::{AllocError, Global};
use yaml_subset::keys::KeyHashing;

/// Names of shots, which lie where they are written.
pub(crate) type ShotNames<'a> = Names<'a>;

// ---- `shots`

/// Adds the faults of the shots of a section.
#[tactic(auto, unfolding(mpf_sections::specs::TypedShots::shots_in))]
pub(crate) fn add_shots(faults: &mut Faults<'_, '_>, section: &Section) -> Result<(), AllocError>
    ensures { OnOk result (Gains faults.old faults.new (faults_of_shots faults.old section.now)) }
{
    let entries = section.entries_of(SHOTS_NAME);
    for entry in entries {
        add_shot(faults, as_shot(entry))?;
    }
    Ok(())
}

/// Adds the faults of a shot. Most have no settings, and then nothing has to be put in order.
fn add_shot(faults: &mut Faults<'_, '_>, shot: Shot<'_>) -> Result<(), AllocError>
    ensures { OnOk result (Gains faults.old faults.new (faults_of_shot faults.old shot.entry)) }
{
    if shot.order.is_empty() {
        add_named_switch(faults, shot.switch)?;
        return add_profile(faults, shot.profile);
    }
    let parts = [
        (SWITCH, NamedThing::Switch(shot.switch)),
        (PROFILE, NamedThing::Profile(shot.profile)),
    ];
    add_as_written(faults, shot.order, &parts)
}

/// Adds a fault if no entry defines the profile of this name.
pub(crate) fn add_profile(
    faults: &mut Faults<'_, '_>,
    profile: NameAt<'_>,
) -> Result<(), AllocError>
    ensures { OnOk result (Gains faults.old faults.new (faults_of_profile faults.old profile.entry)) }
{
    let unknown = !faults.definitions.has_profile(profile.text);
    add_if(faults, unknown, RowFaultKind::Name, profile)
}

/// Adds a fault if a setting names a switch that no entry defines.
pub(crate) fn add_named_switch(
    faults: &mut Faults<'_, '_>,
    switch: Option<NameAt<'_>>,
) -> Result<(), AllocError>
    ensures { OnOk result (Gains faults.old faults.new (faults_of_shot_switch faults.old switch.entry)) }
{
    match switch {
        Some(name) => add_switch_name(faults, name),
        None => Ok(()),
    }
}

// ---- `shot_groups`

/// Adds a fault for each shot that a group of a section lists, and may not list. Here `own` are the shots that the
/// section's text defines, and groups before these list the ones that are taken. Takes all that these groups list.
#[tactic(auto, unfolding(mpf_sections::specs::TypedShots::shot_groups_in))]
pub(crate) fn add_groups<'a>(
    faults: &mut Faults<'_, '_>,
    shots_before: &mut ShotNames<'a>,
    own: &ShotNames<'_>,
    section: &'a Section,
) -> Result<(), AllocError>
    ensures faults { OnOk result (Gains faults.old faults.new
        (faults_of_listed faults.old own.now shots_before.old (listed_by_section faults.old.rows section.now))) }
    ensures takes { OnOk result (Takes shots_before.old shots_before.new
        (listed_by_section faults.old.rows section.now)) }
{
    let groups: &'a [Entry] = section.entries_of(SHOT_GROUPS_NAME);
    for group in groups {
        add_group(faults, shots_before, own, as_shot_group(group))?;
    }
    Ok(())
}

/// The same of one group.
fn add_group<'a>(
    faults: &mut Faults<'_, '_>,
    shots_before: &mut ShotNames<'a>,
    own: &ShotNames<'_>,
    group: ShotGroup<'a>,
) -> Result<(), AllocError>
    ensures faults { OnOk result (Gains faults.old faults.new
        (faults_of_listed faults.old own.now shots_before.old (listed_by_group faults.old.rows group.entry))) }
    ensures takes { OnOk result (Takes shots_before.old shots_before.new
        (listed_by_group faults.old.rows group.entry)) }
{
    let first = first_shot(faults.definitions, group.shots);
    add_listed(faults, shots_before, own, first, group.shots)
}

/// The shot that a group lists first, if it is defined.
fn first_shot<'d>(definitions: &Definitions<'d>, group_names: &[Name]) -> Option<Shot<'d>>
    ensures { option_map shot_view result ≡ first_shot definitions.now (map name_view group_names.now) }
{
    match group_names.first() {
        Some(name) => definitions.shot(&name.text),
        None => None,
    }
}

/// The same of shots that a group lists, of which this one is the first.
fn add_listed<'a>(
    faults: &mut Faults<'_, '_>,
    shots_before: &mut ShotNames<'a>,
    own: &ShotNames<'_>,
    first: Option<Shot<'_>>,
    group_names: &'a [Name],
) -> Result<(), AllocError>
    ensures faults { OnOk result (Gains faults.old faults.new
        (faults_of_listed faults.old own.now shots_before.old (names_listed first.entry group_names.now))) }
    ensures takes { OnOk result (Takes shots_before.old shots_before.new (names_listed first.entry group_names.now)) }
{
    for name in group_names {
        let is_fault = is_misplaced(faults, shots_before, own, first, &name.text);
        add_if(faults, is_fault, RowFaultKind::Name, at(name))?;
        shots_before.insert(&name.text)?;
    }
    Ok(())
}

/// Whether a group may not list the shot of this name.
fn is_misplaced(
    faults: &Faults<'_, '_>,
    shots_before: &ShotNames<'_>,
    own: &ShotNames<'_>,
    first: Option<Shot<'_>>,
    name: &[u8],
) -> bool
    ensures { (line : ℕ) → result ≡ is_misplaced_name faults.now own.now shots_before.now first.entry line name.now }
{
    !has_name(own, name)
        || has_name(shots_before, name)
        || are_of_two_profiles(first, faults.definitions.shot(name))
}

/// Whether one of these names is this one.
fn has_name(names: &ShotNames<'_>, name: &[u8]) -> bool
    ensures { result ≡ is_found names.now name.now }
{
    names.contains(name)
}

/// Whether two shots have different profiles.
fn are_of_two_profiles(one: Option<Shot<'_>>, other: Option<Shot<'_>>) -> bool
    ensures { result ≡ are_of_two_profiles (option_map shot_view one.entry) (option_map shot_view other.entry) }
{
    match (one, other) {
        (Some(one), Some(other)) => one.profile.text != other.profile.text,
        _ => false,
    }
}

// ---- the shots of a text

/// The shots that these sections define, if they have groups. Without groups nothing asks for
/// them, and it gives none.
pub(crate) fn shots_for_groups<'a>(
    alloc: Global,
    hashing: KeyHashing,
    sections: &'a [Section],
) -> Result<ShotNames<'a>, AllocError>
    ensures { IfOk result (λ shots. HasShotsForGroups sections.now shots) }
{
    if have_no_groups(sections) {
        return Ok(IndexSet::with_hasher(alloc, hashing));
    }
    shots_of(alloc, hashing, sections)
}

/// Whether no group stands in these sections.
#[tactic(auto, unfolding(mpf_sections::specs::TypedShots::shot_groups_in))]
fn have_no_groups(sections: &[Section]) -> bool
    ensures { result ≡ true → groups_among sections.now ≡ [] }
{
    for section in sections {
        if !section.entries_of(SHOT_GROUPS_NAME).is_empty() {
            return false;
        }
    }
    true
}

/// The shots that these sections define.
#[tactic(auto, unfolding(mpf_sections::specs::TypedShots::shots_in))]
fn shots_of<'a>(
    alloc: Global,
    hashing: KeyHashing,
    sections: &'a [Section],
) -> Result<ShotNames<'a>, AllocError>
    ensures { IfOk result (λ shots. HasOwnShots sections.now shots) }
{
    let mut shots = IndexSet::with_hasher(alloc, hashing);
    for section in sections {
        take_shots(&mut shots, section.entries_of(SHOTS_NAME))?;
    }
    Ok(shots)
}

fn take_shots<'a>(shots: &mut ShotNames<'a>, entries: &'a [Entry]) -> Result<(), AllocError>
    ensures { OnOk result (GainsNames shots.old shots.new (defines_shot entries.now)) }
{
    shots.reserve(entries.len())?;
    for entry in entries {
        shots.insert(&entry.name.text)?;
    }
    Ok(())
}
