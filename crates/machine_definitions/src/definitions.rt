//! What the entries of all texts define, found by name.

ghost use Rattle.std.specs.Prelude.{◌≡◌, option_map, IfOk, OnOk};
ghost use Rattle.mpf_sections.specs.TypedGame.{min_balls_of};
ghost use Rattle.mpf_sections.specs.View.{coil_view, shot_view, ball_device_view};
ghost use Rattle.mpf_config.specs.View.{rows_view};
ghost use Rattle.machine_definitions.specs.Definitions.{coil_called, has_switch, makes_quick, ball_device_called};
ghost use Rattle.machine_definitions.specs.Shots.{shot_called, has_profile, profile_of_name};
ghost use Rattle.machine_definitions.specs.Found.{profile_view, HasCoils, HasSwitches, HasQuick, HasBallDevices};
ghost use Rattle.machine_definitions.specs.Found.{GainsBallDevices, GainsCoils, GainsNames, as_ball_devices, as_coils};
ghost use Rattle.machine_definitions.specs.Found.{defines_switch, is_made_quick, is_named_at, section_rows};

use crate::by_name::{ByName, Names};
use crate::profile::Profile;
use crate::shots::{profiles_of, shots_of, standard_profile};
use indexmap::{IndexMap, IndexSet};
use mpf_config::config::Config;
use mpf_config::{Coil, Entry, Section, Shot, as_coil, as_shot, min_balls};
use mpf_sections::coil_rules::{needed_name, quick_switch};
use mpf_sections::{BallDeviceEntry, as_ball_device};
use mpf_tables::tables::{BALL_DEVICES_NAME, COILS_NAME, DEFAULT_PROFILE, SWITCHES_NAME};
use std::alloc::{AllocError, Global};
use std::marker::Model;
use yaml_subset::keys::KeyHashing;

/// What the entries of a configuration define: the coils of the machine text, the names of its
/// switches, the names of those that are made quick, its ball devices, and the shots and the profiles
/// of all texts.
#[derive(Drop)]
pub struct Definitions<'a> {
    config: &'a Config,
    coils: ByName<'a, &'a Entry>,
    switches: Names<'a>,
    quick: Names<'a>,
    ball_devices: ByName<'a, &'a Entry>,
    shots: ByName<'a, &'a Entry>,
    profiles: ByName<'a, Profile<'a>>,
    standard: Profile<'a>,
}

impl<'a> Model for Definitions<'a> {
    ghost use Rattle.mpf_config.specs.Rows.{Rows};
    ghost use Rattle.mpf_config.specs.View.{rows_view};
    ghost use Rattle.machine_definitions.specs.Found.{IsDefined};

    ghost Value = { Rows };

    ghost view = { λ d. rows_view d.config.now };

    ghost invariant = { λ d. IsDefined (rows_view d.config.now) d.coils d.switches d.quick d.ball_devices d.shots
        d.profiles d.standard };
}

impl<'a> Definitions<'a> {
    /// What the entries of the configuration define.
    ///
    /// # Errors
    ///
    /// Memory ran out.
    pub fn new(alloc: Global, config: &'a Config) -> Result<Definitions<'a>, AllocError>
        ensures { IfOk result (λ d. d ≡ rows_view config.now) }
    {
        let standard = standard_profile(alloc)?;
        let shots = shots_of(alloc, config)?;
        let profiles = profiles_of(alloc, config)?;
        let machine = machine_tables(alloc, config.hashing, &config.machine.sections)?;
        Ok(Definitions {
            config,
            coils: machine.coils,
            switches: machine.switches,
            quick: machine.quick,
            ball_devices: machine.ball_devices,
            shots,
            profiles,
            standard,
        })
    }

    /// The configuration.
    pub fn config(&self) -> &'a Config
        ensures { rows_view result.now ≡ self.now }
    {
        self.config
    }

    /// The coil of this name, if there is one.
    pub fn coil(&self, name: &[u8]) -> Option<Coil<'a>>
        ensures { option_map coil_view result ≡ coil_called self.now.machine name.now }
    {
        match self.coils.get(name) {
            Some(entry) => Some(as_coil(entry)),
            None => None,
        }
    }

    /// Whether an entry defines a switch of this name.
    pub fn has_switch(&self, name: &[u8]) -> bool
        ensures { result ≡ has_switch self.now.machine name.now }
    {
        self.switches.contains(name)
    }

    /// How many balls have to be at home for a game to begin: at most 99.
    pub fn min_balls(&self) -> u32
        ensures { result ≡ min_balls_of self.now.machine }
    {
        min_balls(&self.config.machine.sections)
    }

    /// Whether a flipper or an autofire coil uses the switch of this name. Then it is read at once
    /// unless its entry says otherwise.
    pub fn makes_quick(&self, name: &[u8]) -> bool
        ensures { result ≡ makes_quick self.now.machine name.now }
    {
        self.quick.contains(name)
    }

    /// The ball device of this name, if there is one.
    pub fn ball_device(&self, name: &[u8]) -> Option<BallDeviceEntry<'a>>
        ensures { option_map ball_device_view result ≡ ball_device_called self.now.machine name.now }
    {
        match self.ball_devices.get(name) {
            Some(entry) => Some(as_ball_device(entry)),
            None => None,
        }
    }

    /// The shot of this name, if there is one, in whichever text.
    // Inlined, as `as_shot` is.
    #[inline(always)]
    pub fn shot(&self, name: &[u8]) -> Option<Shot<'a>>
        ensures { option_map shot_view result ≡ shot_called self.now name.now }
    {
        match self.shots.get(name) {
            Some(entry) => Some(as_shot(entry)),
            None => None,
        }
    }

    /// Whether there is a profile of this name: `default`, or one that an entry defines.
    pub fn has_profile(&self, name: &[u8]) -> bool
        ensures { result ≡ has_profile self.now name.now }
    {
        name == DEFAULT_PROFILE || self.profiles.contains_key(name)
    }

    /// The profile of this name; if no entry defines one, that of shots whose entries name none.
    pub fn profile(&self, name: &[u8]) -> &Profile<'a>
        ensures { profile_view result.now ≡ profile_of_name self.now name.now }
    {
        // (often no entry defines a profile, and then no name is hashed)
        if self.profiles.is_empty() {
            return &self.standard;
        }
        self.profiles.get(name).unwrap_or(&self.standard)
    }
}

/// What the entries of the machine text define, without its shots and profiles.
#[derive(Drop)]
struct MachineTables<'a> {
    coils: ByName<'a, &'a Entry>,
    switches: Names<'a>,
    quick: Names<'a>,
    ball_devices: ByName<'a, &'a Entry>,
}

/// What these sections of the machine text define.
fn machine_tables<'a>(
    alloc: Global,
    hashing: KeyHashing,
    sections: &'a [Section],
) -> Result<MachineTables<'a>, AllocError>
    ensures coils { IfOk result (λ t. HasCoils (section_rows sections.now) t.coils) }
    ensures switches { IfOk result (λ t. HasSwitches (section_rows sections.now) t.switches) }
    ensures quick { IfOk result (λ t. HasQuick (section_rows sections.now) t.quick) }
    ensures ball_devices { IfOk result (λ t. HasBallDevices (section_rows sections.now) t.ball_devices) }
{
    Ok(MachineTables {
        coils: coils_of(alloc, hashing, sections)?,
        switches: switches_of(alloc, hashing, sections)?,
        quick: quick_of(alloc, hashing, sections)?,
        ball_devices: ball_devices_of(alloc, hashing, sections)?,
    })
}

/// The coils of all sections, by their names.
#[tactic(auto, unfolding(mpf_sections::specs::TypedCoils::coils_in))]
fn coils_of<'a>(
    alloc: Global,
    hashing: KeyHashing,
    sections: &'a [Section],
) -> Result<ByName<'a, &'a Entry>, AllocError>
    ensures { IfOk result (λ coils. HasCoils (section_rows sections.now) coils) }
{
    let mut coils = IndexMap::with_hasher(alloc, hashing);
    for section in sections {
        add_coils(&mut coils, section.entries_of(COILS_NAME))?;
    }
    Ok(coils)
}

fn add_coils<'a>(coils: &mut ByName<'a, &'a Entry>, entries: &'a [Entry]) -> Result<(), AllocError>
    ensures { OnOk result (GainsCoils coils.old coils.new (as_coils entries.now)) }
{
    coils.reserve(entries.len())?;
    for entry in entries {
        coils.insert(&entry.name.text, entry)?;
    }
    Ok(())
}

/// The ball devices of all sections, by their names.
fn ball_devices_of<'a>(
    alloc: Global,
    hashing: KeyHashing,
    sections: &'a [Section],
) -> Result<ByName<'a, &'a Entry>, AllocError>
    ensures { IfOk result (λ devices. HasBallDevices (section_rows sections.now) devices) }
{
    let mut devices = IndexMap::with_hasher(alloc, hashing);
    for section in sections {
        add_ball_devices(&mut devices, section.entries_of(BALL_DEVICES_NAME))?;
    }
    Ok(devices)
}

fn add_ball_devices<'a>(
    devices: &mut ByName<'a, &'a Entry>,
    entries: &'a [Entry],
) -> Result<(), AllocError>
    ensures { OnOk result (GainsBallDevices devices.old devices.new (as_ball_devices entries.now)) }
{
    devices.reserve(entries.len())?;
    for entry in entries {
        devices.insert(&entry.name.text, entry)?;
    }
    Ok(())
}

/// The names of the switches of all sections.
#[tactic(auto, unfolding(mpf_sections::specs::Typed::switches_in))]
fn switches_of<'a>(
    alloc: Global,
    hashing: KeyHashing,
    sections: &'a [Section],
) -> Result<Names<'a>, AllocError>
    ensures { IfOk result (λ names. HasSwitches (section_rows sections.now) names) }
{
    let mut names = IndexSet::with_hasher(alloc, hashing);
    for section in sections {
        add_switches(&mut names, section.entries_of(SWITCHES_NAME))?;
    }
    Ok(names)
}

fn add_switches<'a>(names: &mut Names<'a>, entries: &'a [Entry]) -> Result<(), AllocError>
    ensures { OnOk result (GainsNames names.old names.new (defines_switch entries.now)) }
{
    names.reserve(entries.len())?;
    for entry in entries {
        names.insert(&entry.name.text)?;
    }
    Ok(())
}

/// The names of the switches that the entries of all sections make quick.
fn quick_of<'a>(
    alloc: Global,
    hashing: KeyHashing,
    sections: &'a [Section],
) -> Result<Names<'a>, AllocError>
    ensures { IfOk result (λ names. HasQuick (section_rows sections.now) names) }
{
    let mut names = IndexSet::with_hasher(alloc, hashing);
    for section in sections {
        add_quick(&mut names, section)?;
    }
    Ok(names)
}

fn add_quick<'a>(names: &mut Names<'a>, section: &'a Section) -> Result<(), AllocError>
    ensures { OnOk result (GainsNames names.old names.new (is_made_quick section.now)) }
{
    match quick_switch(&section.name) {
        Some(at) => add_names(names, section.content.entries(), at),
        None => Ok(()),
    }
}

/// Adds the name that each entry has at a place.
fn add_names<'a>(names: &mut Names<'a>, entries: &'a [Entry], at: usize) -> Result<(), AllocError>
    ensures { OnOk result (GainsNames names.old names.new (is_named_at at entries.now)) }
{
    for entry in entries {
        names.insert(needed_name(entry, at).text)?;
    }
    Ok(())
}
