//! The entries of `counters`, `accruals` and `sequences`, by the names of their settings.

ghost use Rattle.std.specs.Prelude.{◌≡◌, ◌≤◌};
ghost use Rattle.mpf_sections.specs.View.{entry_view};
ghost use Rattle.mpf_sections.specs.EntryReading.{block_settings_at, IsBlockAt};
ghost use Rattle.mpf_sections.specs.TypedOf.{IsCounterOf, IsStepBlockOf};

use crate::values::{
    direction, flag, handlers_at, integer_at, limit, milliseconds, posts_at, steps,
};
use machine_settings::{BlockSettings, CounterSettings};
use section_tables::rows::Entry;
use setting_values::values::{Handler, Name, Step};

/// The events that all logic blocks have.
#[derive(Clone, Copy)]
pub struct BlockEvents<'a> {
    /// The events that enable the block. Without any it is enabled at first.
    pub enables: &'a [Handler],
    /// The events that disable it.
    pub disables: &'a [Handler],
    /// The events that reset it.
    pub resets: &'a [Handler],
    /// The events that reset and enable it.
    pub restarts: &'a [Handler],
    /// Posted when the block is hit, in place of its own event; none: its own is.
    pub hit: &'a [Name],
    /// Posted when it completes, in place of its own event; none: its own is.
    pub complete: &'a [Name],
}

/// An entry of `counters`.
#[derive(Clone, Copy)]
pub struct CounterEntry<'a> {
    pub name: &'a Name,
    /// The events that it counts.
    pub counts: &'a [Handler],
    pub settings: CounterSettings,
    pub block: BlockEvents<'a>,
    /// The settings that are written, by their places in the table, in the order in which they are
    /// written.
    pub order: &'a [usize],
}

/// An entry of `accruals`, or of `sequences`.
#[derive(Clone, Copy)]
pub struct StepBlock<'a> {
    pub name: &'a Name,
    /// The steps, each with the events that do it: at most 16.
    pub steps: &'a [Step],
    pub settings: BlockSettings,
    pub block: BlockEvents<'a>,
    /// The settings that are written, by their places in the table, in the order in which they are
    /// written.
    pub order: &'a [usize],
}

// The places of the settings in the table of `counters`.
const COUNT_EVENTS: usize = 0;

const STARTING_COUNT: usize = 1;

const COUNT_INTERVAL: usize = 2;

const COUNT_COMPLETE_VALUE: usize = 3;

const DIRECTION: usize = 4;

const MULTIPLE_HIT_WINDOW: usize = 5;

const BLOCK_OF_COUNTER: usize = 6;

/// The place of `events_when_hit` in the table of `counters`.
pub const COUNTER_HIT: usize = 13;

/// The place of `events_when_complete` in the table of `counters`.
pub const COUNTER_COMPLETE: usize = 14;

// The places in the table of `accruals` and `sequences`.
const EVENTS: usize = 0;

const BLOCK_OF_STEPS: usize = 1;

/// The place of `events_when_hit` in the table of `accruals` and `sequences`.
pub const STEPS_HIT: usize = 8;

/// The place of `events_when_complete` in the table of `accruals` and `sequences`.
pub const STEPS_COMPLETE: usize = 9;

// The settings that all logic blocks have, from this place on in a row.
fn block_settings(entry: &Entry, first: usize) -> BlockSettings
    requires { first ≤ 6 }
    ensures { result ≡ block_settings_at first (entry_view entry.now).values }
{
    BlockSettings {
        enabled: handlers_at(entry, first + 3).is_empty(),
        reset_on_complete: flag(entry, first),
        disable_on_complete: flag(entry, first + 1),
        persist: flag(entry, first + 2),
    }
}

// The events that all logic blocks have, after these settings.
fn block_events(entry: &Entry, first: usize) -> BlockEvents<'_>
    requires { first ≤ 6 }
    ensures { IsBlockAt first entry.now result }
{
    BlockEvents {
        enables: handlers_at(entry, first + 3),
        disables: handlers_at(entry, first + 4),
        resets: handlers_at(entry, first + 5),
        restarts: handlers_at(entry, first + 6),
        hit: posts_at(entry, first + 7),
        complete: posts_at(entry, first + 8),
    }
}

/// An entry of `counters`, by the names of its settings.
#[tactic(auto, unfolding(crate::specs::Typed::counter_of))]
pub fn as_counter(entry: &Entry) -> CounterEntry<'_>
    ensures { IsCounterOf entry.now result }
{
    CounterEntry {
        name: &entry.name,
        counts: handlers_at(entry, COUNT_EVENTS),
        settings: CounterSettings {
            block: block_settings(entry, BLOCK_OF_COUNTER),
            start: integer_at(entry, STARTING_COUNT),
            interval: integer_at(entry, COUNT_INTERVAL),
            direction: direction(entry, DIRECTION),
            complete: limit(entry, COUNT_COMPLETE_VALUE),
            window: milliseconds(entry, MULTIPLE_HIT_WINDOW),
        },
        block: block_events(entry, BLOCK_OF_COUNTER),
        order: entry.order(),
    }
}

/// An entry of `accruals` or `sequences`, by the names of its settings.
#[tactic(auto, unfolding(crate::specs::Typed::step_block_of))]
pub fn as_step_block(entry: &Entry) -> StepBlock<'_>
    ensures { IsStepBlockOf entry.now result }
{
    StepBlock {
        name: &entry.name,
        steps: steps(entry, EVENTS),
        settings: block_settings(entry, BLOCK_OF_STEPS),
        block: block_events(entry, BLOCK_OF_STEPS),
        order: entry.order(),
    }
}
