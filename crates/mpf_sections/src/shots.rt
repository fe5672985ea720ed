//! The entries of `shots`, `shot_groups` and `shot_profiles`, by the names of their settings.

ghost use Rattle.mpf_sections.specs.TypedOf.{IsShotOf, IsShotGroupOf, IsShotProfileOf, IsStateOf};
ghost use Rattle.mpf_sections.specs.EntryReading.{AreFewMapsAt};

use crate::typed::NameAt;
use crate::values::{few_names, field, flag, handlers_at, maps_at, name_in, name_or, text};
use mpf_tables::tables::DEFAULT_PROFILE;
use section_tables::rows::Entry;
use setting_values::values::{Fields, Handler, Name};

/// An entry of `shots`.
#[derive(Clone, Copy)]
pub struct Shot<'a> {
    pub name: &'a Name,
    /// The switch that hits it, if there is one: by default there is none.
    pub switch: Option<NameAt<'a>>,
    /// The events that hit it.
    pub hits: &'a [Handler],
    /// The profile that says what states it has: by default `default`, at line 0.
    pub profile: NameAt<'a>,
    /// The events that move it to its next state.
    pub advances: &'a [Handler],
    /// The events that move it to its first state.
    pub resets: &'a [Handler],
    /// The events that enable it. Without any it is enabled at first.
    pub enables: &'a [Handler],
    /// The events that disable it.
    pub disables: &'a [Handler],
    /// The settings that are written, by their places in the table, in the order in which they are
    /// written.
    pub order: &'a [usize],
}

/// An entry of `shot_groups`.
#[derive(Clone, Copy)]
pub struct ShotGroup<'a> {
    pub name: &'a Name,
    /// Its shots: in the rows of a bundle 1 to 16.
    pub shots: &'a [Name],
    /// The events that move the state of each shot to the next shot, and that of the last one to
    /// the first.
    pub rotates: &'a [Handler],
    /// The events that do the same.
    pub rotates_right: &'a [Handler],
    /// The events that move the states the other way.
    pub rotates_left: &'a [Handler],
    /// The events that move each shot to its first state.
    pub resets: &'a [Handler],
}

/// An entry of `shot_profiles`.
#[derive(Clone, Copy)]
pub struct ShotProfile<'a> {
    pub name: &'a Name,
    /// The states, first to last, each to be read with [`as_state`]: in the rows of a bundle 1 to
    /// 16, of which no two have the same name.
    pub states: &'a [Fields],
    /// Whether a hit moves a shot to its next state: by default it does.
    pub advance_on_hit: bool,
    /// The setting `loop`: whether the first state comes after the last. By default none does.
    pub loops: bool,
}

// The places of the settings in the three tables.

/// The place of `switch` in the table of `shots`.
pub const SWITCH: usize = 0;

const HITS: usize = 1;

/// The place of `profile` in the table of `shots`.
pub const PROFILE: usize = 2;

const ADVANCES: usize = 3;

const SHOT_RESETS: usize = 4;

const ENABLES: usize = 5;

const DISABLES: usize = 6;

// Those in the table of `shot_groups`.
const SHOTS: usize = 0;

const ROTATES: usize = 1;

const ROTATES_RIGHT: usize = 2;

const ROTATES_LEFT: usize = 3;

const GROUP_RESETS: usize = 4;

// Those in the table of `shot_profiles`.
const STATES: usize = 0;

const ADVANCE_ON_HIT: usize = 1;

const LOOP: usize = 2;

// The place of the field in the map of a state.
const STATE_NAME: usize = 0;

// The maps at a place of a row, 16 at most.
fn few_maps(entry: &Entry, at: usize) -> &[Fields]
    ensures { AreFewMapsAt entry.now at result.now }
{
    let maps = maps_at(entry, at);
    if maps.len() <= 16 { maps } else { &[] }
}

/// An entry of `shots`, by the names of its settings.
// Inlined, so that a caller that reads one setting does not read the others.
#[inline(always)]
#[tactic(auto, unfolding(crate::specs::TypedShots::shot_of))]
pub fn as_shot(entry: &Entry) -> Shot<'_>
    ensures { IsShotOf entry.now result }
{
    Shot {
        name: &entry.name,
        switch: name_in(text(entry, SWITCH)),
        hits: handlers_at(entry, HITS),
        profile: name_or(text(entry, PROFILE), DEFAULT_PROFILE),
        advances: handlers_at(entry, ADVANCES),
        resets: handlers_at(entry, SHOT_RESETS),
        enables: handlers_at(entry, ENABLES),
        disables: handlers_at(entry, DISABLES),
        order: entry.order(),
    }
}

/// An entry of `shot_groups`, by the names of its settings.
#[tactic(auto, unfolding(crate::specs::TypedShots::shot_group_of))]
pub fn as_shot_group(entry: &Entry) -> ShotGroup<'_>
    ensures { IsShotGroupOf entry.now result }
{
    ShotGroup {
        name: &entry.name,
        shots: few_names(entry, SHOTS),
        rotates: handlers_at(entry, ROTATES),
        rotates_right: handlers_at(entry, ROTATES_RIGHT),
        rotates_left: handlers_at(entry, ROTATES_LEFT),
        resets: handlers_at(entry, GROUP_RESETS),
    }
}

/// A map of `states`: the name of the state; none if it has none, as no map has that is read.
#[tactic(auto, unfolding(crate::specs::TypedShots::state_of))]
pub fn as_state(map: &Fields) -> Option<NameAt<'_>>
    ensures { IsStateOf map.now result }
{
    name_in(field(&map.values, STATE_NAME))
}

/// An entry of `shot_profiles`, by the names of its settings.
#[tactic(auto, unfolding(crate::specs::TypedShots::shot_profile_of))]
pub fn as_shot_profile(entry: &Entry) -> ShotProfile<'_>
    ensures { IsShotProfileOf entry.now result }
{
    ShotProfile {
        name: &entry.name,
        states: few_maps(entry, STATES),
        advance_on_hit: flag(entry, ADVANCE_ON_HIT),
        loops: flag(entry, LOOP),
    }
}
