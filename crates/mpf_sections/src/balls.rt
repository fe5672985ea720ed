//! The entries of `ball_devices`, by the names of their settings.

ghost use Rattle.std.specs.Prelude.{◌≡◌, ◌<◌};
ghost use Rattle.mpf_sections.specs.TypedBalls.{attempts_of, is_tagged, is_trough, is_home, is_drain};
ghost use Rattle.mpf_sections.specs.View.{ball_device_view};
ghost use Rattle.mpf_sections.specs.TypedOf.{IsBallDeviceOf};

use crate::numbers::{duration_at, natural};
use crate::typed::NameAt;
use crate::values::{few_names, flag, name_in, name_or, names_at, text};
use machine_settings::EjectSettings;
use mpf_tables::tables::{BALL_DEVICES, PLAYFIELD};
use section_tables::rows::Entry;
use setting_values::values::Name;

/// An entry of `ball_devices`.
#[derive(Clone, Copy)]
pub struct BallDeviceEntry<'a> {
    pub name: &'a Name,
    /// Its ball switches, each of a place for a ball: at most 16.
    pub switches: &'a [Name],
    /// The coil that ejects a ball, if there is one: by default there is none.
    pub eject_coil: Option<NameAt<'a>>,
    /// The device to which it ejects its balls, or `playfield`, as by default, at line 0.
    pub target: NameAt<'a>,
    pub ejects: EjectSettings,
    /// Its tags, of which `trough`, `home` and `drain` say what it is for.
    pub tags: &'a [Name],
    /// The settings that are written, by their places in the table, in the order in which they are
    /// written.
    pub order: &'a [usize],
}

// The places of the settings in the section's table.

/// The place of `ball_switches` in the table of `ball_devices`.
pub const BALL_SWITCHES: usize = 0;

/// The place of `eject_coil` in the table of `ball_devices`.
pub const EJECT_COIL: usize = 1;

/// The place of `eject_targets` in the table of `ball_devices`.
pub const EJECT_TARGETS: usize = 2;

const EJECT_TIMEOUTS: usize = 3;

const ENTRANCE_COUNT_DELAY: usize = 4;

const EXIT_COUNT_DELAY: usize = 5;

const MECHANICAL_EJECT: usize = 6;

const MAX_EJECT_ATTEMPTS: usize = 7;

const TAGS: usize = 8;

const TROUGH: &[u8] = b"trough";

const HOME: &[u8] = b"home";

const DRAIN: &[u8] = b"drain";

// How many attempts there may be, by a number of 16 bits: 0 stands for no limit.
fn attempts(number: u32) -> Option<u16>
    ensures { number < 65536 → result ≡ attempts_of number }
{
    match u16::try_from(number) {
        Ok(n) if n > 0 => Some(n),
        _ => None,
    }
}

/// An entry of `ball_devices`, by the names of its settings.
#[tactic(auto, unfolding(crate::specs::TypedBalls::ball_device_of))]
pub fn as_ball_device(entry: &Entry) -> BallDeviceEntry<'_>
    ensures { IsBallDeviceOf entry.now result }
{
    BallDeviceEntry {
        name: &entry.name,
        switches: few_names(entry, BALL_SWITCHES),
        eject_coil: name_in(text(entry, EJECT_COIL)),
        target: name_or(text(entry, EJECT_TARGETS), PLAYFIELD),
        ejects: EjectSettings {
            entrance_delay: duration_at(entry, BALL_DEVICES, ENTRANCE_COUNT_DELAY),
            exit_delay: duration_at(entry, BALL_DEVICES, EXIT_COUNT_DELAY),
            timeout: duration_at(entry, BALL_DEVICES, EJECT_TIMEOUTS),
            max_attempts: attempts(natural(entry, BALL_DEVICES, MAX_EJECT_ATTEMPTS)),
            mechanical: flag(entry, MECHANICAL_EJECT),
        },
        tags: names_at(entry, TAGS),
        order: entry.order(),
    }
}

impl BallDeviceEntry<'_> {
    fn is_tagged(&self, tag: &[u8]) -> bool
        ensures { result ≡ is_tagged tag.now (ball_device_view self.now) }
    {
        self.tags.iter().any(|name| name.text.as_slice() == tag)
    }

    /// Whether it ejects balls only on request: it is tagged `trough`.
    pub fn is_trough(&self) -> bool
        ensures { result ≡ is_trough (ball_device_view self.now) }
    {
        self.is_tagged(TROUGH)
    }

    /// Whether the balls in it are at home when a game is to begin: it is tagged `trough` or `home`.
    pub fn is_home(&self) -> bool
        ensures { result ≡ is_home (ball_device_view self.now) }
    {
        self.is_trough() || self.is_tagged(HOME)
    }

    /// Whether a ball that enters it, and was not on its way there, has drained: it is tagged `drain`.
    pub fn is_drain(&self) -> bool
        ensures { result ≡ is_drain (ball_device_view self.now) }
    {
        self.is_tagged(DRAIN)
    }
}
