//! What one row gives to a plan.

ghost use Rattle.std.specs.Prelude.{◌≡◌, [], ◌∷◌, ◌++◌, OnOk, OnErr};

use crate::effects::EffectLists;
use crate::names::{NamePieces, whole};
use mpf_config::{Guard, HandledAt, ModeSettings, mode_settings};
use plan_rows::Row;
use plan_tables::devices::{Act, Settings};
use plan_tables::entries::{CoilLimits, ModeId, Owner, SwitchKind};
use std::alloc::{AllocError, Global};

/// The owner of a device or a handler, and the priority of what it binds to events. The row of a device has no
/// priority.
#[derive(Clone, Copy)]
pub struct Whose {
    pub owner: Owner,
    pub priority: u32,
}

/// The text that a row is in.
#[derive(Clone, Copy)]
pub struct RowText {
    /// Whose it is.
    pub whose: Whose,
    /// How many modes come before the row: the number of the mode, if the row is one.
    pub modes: u16,
}

impl RowText {
    ghost use Rattle.std.specs.Prelude.{◌≡◌, ◌<◌};
    ghost use Rattle.plan_rows.specs.View.{row_view};
    ghost use Rattle.plan_parts.specs.RowViews.{machine_text, text_after, text_view};

    /// The machine text.
    pub fn machine() -> RowText
        ensures { text_view result ≡ machine_text }
    {
        RowText {
            whose: Whose {
                owner: Owner::Machine,
                priority: 0,
            },
            modes: 0,
        }
    }

    /// The text that the next row is in: a mode comes before the rows of its text. No machine has so many modes that
    /// they cannot be counted.
    pub fn after(self, row: Row<'_, '_>) -> RowText
        ensures { self.modes < 65535 → text_view result ≡ text_after (row_view row.entry) (text_view self) }
    {
        match row {
            Row::Mode(_, sections) => RowText {
                whose: Whose {
                    owner: Owner::Mode(ModeId(self.modes)),
                    priority: mode_settings(sections).priority,
                },
                modes: self.modes.saturating_add(1),
            },
            _ => self,
        }
    }
}

/// Adds one more, or leaves what was there if memory runs out. Everything adds by this call: `push` hands back what
/// it was given if it fails, and each `?` after a `push` would have to drop it, which is slow to prove.
pub(crate) fn add<T: Drop>(items: &mut Vec<T>, more: T) -> Result<(), AllocError>
    ensures items { OnOk result (items.new.items ≡ items.old.items ++ more ∷ []) }
    ensures same { OnErr result (items.new.items ≡ items.old.items) }
{
    items.push(more)?;
    Ok(())
}

/// An event that is handled, and the condition if it has one.
#[derive(Clone, Copy)]
pub struct HandledName<'a> {
    pub event: NamePieces<'a>,
    pub condition: Option<&'a Guard>,
}

impl<'a> HandledName<'a> {
    ghost use Rattle.std.specs.Prelude.{◌≡◌};
    ghost use Rattle.mpf_sections.specs.View.{handled_at_view};
    ghost use Rattle.plan_parts.specs.DeviceEntries.{always};
    ghost use Rattle.plan_parts.specs.RowViews.{handled_event_view};
    ghost use Rattle.plan_parts.specs.View.{pieces_text};

    /// As it is written.
    pub fn as_written(handled_at: HandledAt<'a>) -> HandledName<'a>
        ensures { handled_event_view result ≡ (handled_at_view handled_at.entry).event }
    {
        HandledName {
            event: whole(handled_at.name),
            condition: handled_at.condition,
        }
    }

    /// The event of this name, whatever the variables are.
    pub fn always(event: NamePieces<'a>) -> HandledName<'a>
        ensures { handled_event_view result ≡ always (pieces_text event.entry) }
    {
        HandledName {
            event,
            condition: None,
        }
    }
}

/// What an event does with a mode.
#[derive(Clone, Copy)]
pub enum ModeControl {
    /// It starts the mode.
    Start,
    /// It stops the mode.
    Stop,
}

/// What a row is to a plan. The other fields of [`RowParts`] say the rest.
#[derive(Clone, Copy)]
pub enum RowHead<'a> {
    /// It gives nothing.
    Nothing,
    /// A switch: its name, how it is read, and whether a ball that presses it is on the playfield. It posts
    /// `active` and `inactive`.
    Switch {
        name: &'a [u8],
        kind: SwitchKind,
        confirms_playfield: bool,
    },
    /// A coil: its name, and what it may be sent.
    Coil(&'a [u8], CoilLimits),
    /// The game: how many balls have to be at home for it to begin, how many each player has, and how many
    /// players there can be.
    Game {
        min_balls: u32,
        balls_per_game: u32,
        max_players: u32,
    },
    /// A mode: its number, its name and its settings. `controls` start and stop it.
    Mode(ModeId, &'a [u8], ModeSettings<'a>),
    /// A handler of this event: it does what `lists` do.
    Handler(HandledName<'a>),
    /// A device with these settings: `listens`, `event_acts`, `other_mentions` and `lists` are its own.
    Device(Settings),
    /// A shot in a group: the events of `event_acts` act on the row of this number, which may come later.
    Seat(usize),
}

/// What one row gives to a plan, by names. Its vectors are cleared and used again for the next row.
#[derive(Drop)]
pub struct RowParts<'a> {
    /// Whether a setting names a profile, a shot or a ball device that nothing has.
    pub unknown: bool,
    /// The switch of a shot. Of all names of a row, it is the first.
    pub mention: Option<&'a [u8]>,
    /// What the row is to a plan.
    pub head: RowHead<'a>,
    /// Whose it is.
    pub whose: Whose,
    /// What a switch posts when it becomes active.
    pub active: Vec<NamePieces<'a>>,
    /// What a switch posts when it becomes inactive.
    pub inactive: Vec<NamePieces<'a>>,
    /// What starts and stops a mode.
    pub controls: Vec<(HandledName<'a>, ModeControl)>,
    /// The switches to which a device listens. A switch has its place among them as its number in the device.
    pub listens: Vec<&'a [u8]>,
    /// The events that a device or a seat handles, and what each does.
    pub event_acts: Vec<(HandledName<'a>, Act)>,
    /// Other events that a device names before its effect lists do.
    pub other_mentions: Vec<NamePieces<'a>>,
    /// The effect lists of a device, or the one of a handler.
    pub lists: EffectLists<'a>,
}

impl<'a> RowParts<'a> {
    ghost use Rattle.plan_parts.specs.RowViews.{AreNoParts, whose_view};
    ghost use Rattle.plan_parts.specs.Parts.{own};
    ghost use Rattle.std.specs.Prelude.{◌≡◌};

    /// No parts, of the machine.
    pub fn new(alloc: Global) -> RowParts<'a>
        ensures { AreNoParts own result }
    {
        RowParts {
            unknown: false,
            mention: None,
            head: RowHead::Nothing,
            whose: RowText::machine().whose,
            active: Vec::new(alloc),
            inactive: Vec::new(alloc),
            controls: Vec::new(alloc),
            listens: Vec::new(alloc),
            event_acts: Vec::new(alloc),
            other_mentions: Vec::new(alloc),
            lists: EffectLists::new(alloc),
        }
    }

    /// Removes all that was there. What comes has this owner and priority.
    pub fn clear(&mut self, whose: Whose)
        ensures { AreNoParts (whose_view whose) self.new }
    {
        self.unknown = false;
        self.mention = None;
        self.head = RowHead::Nothing;
        self.whose = whose;
        self.active.clear();
        self.inactive.clear();
        self.controls.clear();
        self.listens.clear();
        self.event_acts.clear();
        self.other_mentions.clear();
        self.lists.clear();
    }
}
