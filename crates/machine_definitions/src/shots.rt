//! The shots of all texts, and their profiles, by their names.

ghost use Rattle.std.specs.Prelude.{◌≡◌, IfOk, OnOk};
ghost use Rattle.mpf_config.specs.View.{rows_view};
ghost use Rattle.machine_definitions.specs.Shots.{standard_profile};
ghost use Rattle.machine_definitions.specs.Found.{names_view, profile_view, HasShots, HasProfiles, GainsProfiles};
ghost use Rattle.machine_definitions.specs.Found.{GainsShots, as_profile, as_profiles, as_shots, as_states};
ghost use Rattle.machine_definitions.specs.Found.{profiles_among, shots_among};

use crate::by_name::ByName;
use crate::profile::Profile;
use indexmap::IndexMap;
use mpf_config::config::{Config, ModeText};
use mpf_config::{Entry, Fields, Section, as_shot_profile, as_state};
use mpf_tables::tables::{DEFAULT_PROFILE, SHOT_PROFILES_NAME, SHOTS_NAME};
use std::alloc::{AllocError, Global};

// ---- shots

/// The shots of all texts.
pub(crate) fn shots_of<'a>(
    alloc: Global,
    config: &'a Config,
) -> Result<ByName<'a, &'a Entry>, AllocError>
    ensures { IfOk result (λ shots. HasShots (rows_view config.now) shots) }
{
    let machine: &'a [Section] = config.machine.sections.as_slice();
    let modes: &'a [ModeText] = config.modes.as_slice();
    let mut shots: ByName<'a, &'a Entry> = IndexMap::with_hasher(alloc, config.hashing);
    add_text_shots(&mut shots, machine)?;
    for mode in modes {
        add_text_shots(&mut shots, &mode.sections)?;
    }
    Ok(shots)
}

/// Adds those of a text.
#[tactic(auto, unfolding(mpf_sections::specs::TypedShots::shots_in))]
fn add_text_shots<'a>(
    shots: &mut ByName<'a, &'a Entry>,
    sections: &'a [Section],
) -> Result<(), AllocError>
    ensures { OnOk result (GainsShots shots.old shots.new (shots_among sections.now)) }
{
    for section in sections {
        add_shots(shots, section.entries_of(SHOTS_NAME))?;
    }
    Ok(())
}

fn add_shots<'a>(shots: &mut ByName<'a, &'a Entry>, entries: &'a [Entry]) -> Result<(), AllocError>
    ensures { OnOk result (GainsShots shots.old shots.new (as_shots entries.now)) }
{
    shots.reserve(entries.len())?;
    for entry in entries {
        shots.insert(&entry.name.text, entry)?;
    }
    Ok(())
}

// ---- profiles

/// The profiles that the entries of all texts define.
pub(crate) fn profiles_of<'a>(
    alloc: Global,
    config: &'a Config,
) -> Result<ByName<'a, Profile<'a>>, AllocError>
    ensures { IfOk result (λ profiles. HasProfiles (rows_view config.now) profiles) }
{
    let machine: &'a [Section] = config.machine.sections.as_slice();
    let modes: &'a [ModeText] = config.modes.as_slice();
    let mut profiles: ByName<'a, Profile<'a>> = IndexMap::with_hasher(alloc, config.hashing);
    add_text_profiles(alloc, &mut profiles, machine)?;
    for mode in modes {
        add_text_profiles(alloc, &mut profiles, &mode.sections)?;
    }
    Ok(profiles)
}

/// Adds those of a text.
fn add_text_profiles<'a>(
    alloc: Global,
    profiles: &mut ByName<'a, Profile<'a>>,
    sections: &'a [Section],
) -> Result<(), AllocError>
    ensures { OnOk result (GainsProfiles profiles.old profiles.new (profiles_among sections.now)) }
{
    for section in sections {
        add_profiles(alloc, profiles, section.entries_of(SHOT_PROFILES_NAME))?;
    }
    Ok(())
}

fn add_profiles<'a>(
    alloc: Global,
    profiles: &mut ByName<'a, Profile<'a>>,
    entries: &'a [Entry],
) -> Result<(), AllocError>
    ensures { OnOk result (GainsProfiles profiles.old profiles.new (as_profiles entries.now)) }
{
    for entry in entries {
        let profile = profile_of(alloc, entry)?;
        let before = profiles.insert(profile.name, profile)?;
        drop(before);
    }
    Ok(())
}

/// The profile of shots whose entries name none.
pub(crate) fn standard_profile<'a>(alloc: Global) -> Result<Profile<'a>, AllocError>
    ensures { IfOk result (λ p. profile_view p ≡ standard_profile) }
{
    let mut states: Vec<&'a [u8]> = Vec::new(alloc);
    states.push(b"unlit")?;
    states.push(b"lit")?;
    Ok(Profile {
        name: DEFAULT_PROFILE,
        states,
        advance_on_hit: true,
        loops: false,
    })
}

/// The profile that an entry defines.
pub(crate) fn profile_of<'a>(alloc: Global, entry: &'a Entry) -> Result<Profile<'a>, AllocError>
    ensures { IfOk result (λ p. profile_view p ≡ as_profile entry.now) }
{
    let row = as_shot_profile(entry);
    Ok(Profile {
        name: &row.name.text,
        states: states_of(alloc, row.states)?,
        advance_on_hit: row.advance_on_hit,
        loops: row.loops,
    })
}

/// The names of the states.
fn states_of<'a>(alloc: Global, maps: &'a [Fields]) -> Result<Vec<&'a [u8]>, AllocError>
    ensures { IfOk result (λ states. names_view states.items ≡ as_states maps.now) }
{
    let mut states = Vec::new(alloc);
    for fields in maps {
        if let Some(state) = as_state(fields) {
            states.push(state.text)?;
        }
    }
    Ok(states)
}
