//! The entries of `ball_saves` and `multiballs`, by the names of their settings.

ghost use Rattle.std.specs.Prelude.{◌≡◌, ◌<◌};
ghost use Rattle.mpf_sections.specs.TypedOf.{IsBallSaveOf, IsMultiballOf};

use crate::numbers::natural;
use crate::values::{handlers_at, milliseconds};
use machine_settings::{MultiballSettings, SaveSettings};
use mpf_tables::tables::{BALL_SAVES, MULTIBALLS};
use section_tables::rows::Entry;
use setting_values::values::{Handler, Name};

/// An entry of `ball_saves`.
#[derive(Clone, Copy)]
pub struct BallSaveEntry<'a> {
    pub name: &'a Name,
    pub settings: SaveSettings,
    /// The events that enable it.
    pub enable_events: &'a [Handler],
    /// The events that disable it.
    pub disable_events: &'a [Handler],
}

/// An entry of `multiballs`.
#[derive(Clone, Copy)]
pub struct MultiballEntry<'a> {
    pub name: &'a Name,
    pub settings: MultiballSettings,
    /// The events that start it.
    pub start_events: &'a [Handler],
}

// The places of the settings in the table of `ball_saves`.
const ACTIVE_TIME: usize = 0;

const BALLS_TO_SAVE: usize = 1;

const ENABLE_EVENTS: usize = 2;

const DISABLE_EVENTS: usize = 3;

// Those in the table of `multiballs`.
const BALL_COUNT: usize = 0;

const START_EVENTS: usize = 1;

// A number, if it fits 8 bits.
fn small(number: u32) -> u8
    ensures { number < 256 → result ≡ number }
{
    u8::try_from(number).unwrap_or(0)
}

/// An entry of `ball_saves`, by the names of its settings.
#[tactic(auto, unfolding(crate::specs::TypedSaves::ball_save_of))]
pub fn as_ball_save(entry: &Entry) -> BallSaveEntry<'_>
    ensures { IsBallSaveOf entry.now result }
{
    BallSaveEntry {
        name: &entry.name,
        settings: SaveSettings {
            active_time: milliseconds(entry, ACTIVE_TIME),
            balls: small(natural(entry, BALL_SAVES, BALLS_TO_SAVE)),
        },
        enable_events: handlers_at(entry, ENABLE_EVENTS),
        disable_events: handlers_at(entry, DISABLE_EVENTS),
    }
}

/// An entry of `multiballs`, by the names of its settings.
#[tactic(auto, unfolding(crate::specs::TypedSaves::multiball_of))]
pub fn as_multiball(entry: &Entry) -> MultiballEntry<'_>
    ensures { IsMultiballOf entry.now result }
{
    MultiballEntry {
        name: &entry.name,
        settings: MultiballSettings {
            balls: small(natural(entry, MULTIBALLS, BALL_COUNT)),
        },
        start_events: handlers_at(entry, START_EVENTS),
    }
}
