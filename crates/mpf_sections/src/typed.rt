//! The entries of sections, by the names of their settings.

ghost use Rattle.std.specs.Prelude.{◌≡◌, None};
ghost use Rattle.mpf_sections.specs.Typed.{mode_settings_of, starts_at_ball_end, mode_row, contact_of, debounce_of};
ghost use Rattle.mpf_sections.specs.View.{mode_settings_view};
ghost use Rattle.mpf_sections.specs.TypedOf.{IsEventOf, IsSwitchOf, IsEventPlayerOf, AreModeSettingsOf};
ghost use Rattle.mpf_sections.specs.TypedOf.{AreModeSettingsIn, AreModesIn, AreEntriesIn, ArePlayersIn, AreEntriesOf};
ghost use Rattle.mpf_sections.specs.TypedOf.{ArePlayersOf};
ghost use Rattle.mpf_sections.specs.EntryReading.{are_ball_ending, IsContentNamed};

use crate::section::{Content, Section};
use crate::values::{
    flag, handled_event, handlers_at, names_at, natural, posts, posts_at, word_at,
};
use crate::words::Debounce;
use machine_settings::Contact;
use mpf_tables::tables::{MODE_NAME, MODES_NAME};
use section_tables::rows::{Entry, PlayerEntry};
use setting_values::values::{Guard, Handler, Name};

/// A name where it is written.
#[derive(Clone, Copy)]
pub struct NameAt<'a> {
    pub line: u32,
    pub text: &'a [u8],
}

/// An event that is handled, where it is written, with its condition if it has one.
#[derive(Clone, Copy)]
pub struct HandledAt<'a> {
    pub line: u32,
    pub name: &'a [u8],
    pub condition: Option<&'a Guard>,
}

/// An entry of `switches`.
#[derive(Clone, Copy)]
pub struct Switch<'a> {
    pub name: &'a Name,
    /// The setting `type`: NO by default.
    pub contact: Contact,
    /// Auto by default.
    pub debounce: Debounce,
    /// For each tag `T` the switch posts `sw_T` when it becomes active.
    pub tags: &'a [Name],
    /// Also posted when the switch becomes active: `events_when_activated`.
    pub activation_events: &'a [Name],
    /// Also posted when it becomes inactive: `events_when_deactivated`.
    pub deactivation_events: &'a [Name],
    /// The settings that are written, by their places in the table, in the order in which they are
    /// written.
    pub order: &'a [usize],
}

/// An entry of `event_player`: when the event is handled, the others are posted, in order.
#[derive(Clone, Copy)]
pub struct EventPlayer<'a> {
    pub event: HandledAt<'a>,
    pub posts: &'a [Name],
}

/// What the section `mode` says of a mode.
#[derive(Clone, Copy)]
pub struct ModeSettings<'a> {
    /// The events that start it.
    pub starts: &'a [Handler],
    /// The events that stop it.
    pub stops: &'a [Handler],
    /// The priority of its handlers: in the rows of a bundle at most 1,000,000; 100 by default.
    pub priority: u32,
    /// Whether it runs only in a game: by default it does.
    pub game: bool,
    /// Whether it stops with the ball: by default it does.
    pub stops_with_ball: bool,
    /// Whether it holds the end of the ball, `use_wait_queue`: by default it does not.
    pub holds_ball_end: bool,
}

// ---- handled events

/// An event of a list, where it is written.
pub fn as_handled(handler: &Handler) -> HandledAt<'_>
    ensures { IsEventOf handler.now result }
{
    HandledAt {
        line: handler.line,
        name: &handler.name,
        condition: handler.condition.as_deref(),
    }
}

// ---- `switches`

// The places of the settings in the section's table.
const TYPE: usize = 0;

const DEBOUNCE: usize = 1;

const TAGS: usize = 2;

/// The place of `events_when_activated` in the table of `switches`.
pub const ACTIVATION_EVENTS: usize = 3;

/// The place of `events_when_deactivated` in the table of `switches`.
pub const DEACTIVATION_EVENTS: usize = 4;

const NORMALLY_CLOSED: &[u8] = b"NC";

const QUICK: &[u8] = b"quick";

const NORMAL: &[u8] = b"normal";

// The contact of a word.
fn contact_of(word: &[u8]) -> Contact
    ensures { result ≡ contact_of word.now }
{
    if word == NORMALLY_CLOSED {
        return Contact::NormallyClosed;
    }
    Contact::NormallyOpen
}

// The debounce of a word.
fn debounce_of(word: &[u8]) -> Debounce
    ensures { result ≡ debounce_of word.now }
{
    if word == QUICK {
        return Debounce::Quick;
    }
    if word == NORMAL {
        return Debounce::Normal;
    }
    Debounce::Auto
}

/// An entry of `switches`, by the names of its settings.
#[tactic(auto, unfolding(crate::specs::Typed::switch_of))]
pub fn as_switch(entry: &Entry) -> Switch<'_>
    ensures { IsSwitchOf entry.now result }
{
    Switch {
        name: &entry.name,
        contact: contact_of(word_at(entry, TYPE)),
        debounce: debounce_of(word_at(entry, DEBOUNCE)),
        tags: names_at(entry, TAGS),
        activation_events: posts_at(entry, ACTIVATION_EVENTS),
        deactivation_events: posts_at(entry, DEACTIVATION_EVENTS),
        order: entry.order(),
    }
}

// ---- `event_player`

/// An entry of `event_player`, by the names of what it has.
#[tactic(auto, unfolding(crate::specs::Typed::event_player_of))]
pub fn as_event_player(player: &PlayerEntry) -> EventPlayer<'_>
    ensures { IsEventPlayerOf player.now result }
{
    EventPlayer {
        event: handled_event(&player.event),
        posts: posts(&player.value),
    }
}

// ---- `mode`

// The places of the settings in the section's table.
const START_EVENTS: usize = 0;

const STOP_EVENTS: usize = 1;

const PRIORITY: usize = 2;

const GAME_MODE: usize = 3;

const STOP_ON_BALL_END: usize = 4;

const USE_WAIT_QUEUE: usize = 5;

const BALL_ENDING: &[u8] = b"ball_ending";

// What holds if no setting is written.
#[tactic(auto, unfolding(crate::specs::Typed::mode_settings_of))]
fn default_settings<'a>() -> ModeSettings<'a>
    ensures { mode_settings_view result ≡ mode_settings_of (mode_row None) }
{
    ModeSettings {
        starts: &[],
        stops: &[],
        priority: 100,
        game: true,
        stops_with_ball: true,
        holds_ball_end: false,
    }
}

/// The row of `mode`, by the names of its settings.
#[tactic(auto, unfolding(crate::specs::Typed::mode_settings_of))]
pub fn as_mode_settings(entry: &Entry) -> ModeSettings<'_>
    ensures { AreModeSettingsOf entry.now result }
{
    ModeSettings {
        starts: handlers_at(entry, START_EVENTS),
        stops: handlers_at(entry, STOP_EVENTS),
        priority: natural(entry, PRIORITY),
        game: flag(entry, GAME_MODE),
        stops_with_ball: flag(entry, STOP_ON_BALL_END),
        holds_ball_end: flag(entry, USE_WAIT_QUEUE),
    }
}

impl ModeSettings<'_> {
    /// Whether the mode starts at the end of the ball and at nothing else: it has start events, and each of them
    /// is `ball_ending`, with or without a condition.
    #[tactic(auto, unfolding(crate::specs::Typed::starts_at_ball_end))]
    pub fn starts_at_ball_end(&self) -> bool
        ensures { result ≡ starts_at_ball_end (mode_settings_view self.now) }
    {
        !self.starts.is_empty() && are_ball_ending(self.starts)
    }
}

// Whether each of these events is `ball_ending`.
fn are_ball_ending(starts: &[Handler]) -> bool
    ensures { result ≡ are_ball_ending starts.now }
{
    starts
        .iter()
        .all(|start| start.name.as_slice() == BALL_ENDING)
}

/// What the sections of a mode say of it: its section `mode`, with the defaults for what is not
/// written.
pub fn mode_settings(sections: &[Section]) -> ModeSettings<'_>
    ensures { AreModeSettingsIn sections.now result }
{
    match section_named(sections, MODE_NAME) {
        Some(Content::Entry(entry)) => as_mode_settings(entry),
        _ => default_settings(),
    }
}

// ---- `modes`

/// The names that the section `modes` lists, each with its line; none if there is no such
/// section.
pub fn listed_modes(sections: &[Section]) -> &[Name]
    ensures { AreModesIn sections.now result.now }
{
    match section_named(sections, MODES_NAME) {
        Some(Content::Names(names)) => names,
        _ => &[],
    }
}

// ---- sections

/// The content of the section of this name, if there is one.
pub(crate) fn section_named<'a>(sections: &'a [Section], name: &[u8]) -> Option<&'a Content>
    ensures { IsContentNamed name.now sections.now result }
{
    for section in sections {
        if section.name.as_slice() == name {
            return Some(&section.content);
        }
    }
    None
}

impl Content {
    /// The entries of a section that is written as entries; none of any other.
    pub fn entries(&self) -> &[Entry]
        ensures { AreEntriesIn self.now result.now }
    {
        match self {
            Content::Entries(entries) => entries,
            _ => &[],
        }
    }

    fn players(&self) -> &[PlayerEntry]
        ensures { ArePlayersIn self.now result.now }
    {
        match self {
            Content::Players(players) => players,
            _ => &[],
        }
    }
}

impl Section {
    /// The entries of the section, if it has this name; none otherwise. Those of `switches` are to be
    /// read with [`as_switch`], and so on. `mpf_tables::tables` has the names.
    pub fn entries_of(&self, name: &[u8]) -> &[Entry]
        ensures { AreEntriesOf name.now self.now result.now }
    {
        if self.name.as_slice() == name {
            return self.content.entries();
        }
        &[]
    }

    /// The entries of the player, if the section has this name; none otherwise.
    pub fn players_of(&self, name: &[u8]) -> &[PlayerEntry]
        ensures { ArePlayersOf name.now self.now result.now }
    {
        if self.name.as_slice() == name {
            return self.content.players();
        }
        &[]
    }
}
