//! What the entries of ball devices give to a plan.

ghost use Rattle.std.specs.Prelude.{◌≡◌, ◌≤◌, ◌++◌, ◌∷◌, [], length, map, option_map, OnOk};
ghost use Rattle.machine_definitions.specs.Found.{section_rows};
ghost use Rattle.mpf_sections.specs.View.{section_view, ball_device_view, name_at_view, name_view};
ghost use Rattle.plan_parts.specs.BallEntries.{is_game, has_game, drains, ball_event, ball_lists, attempt_effects};
ghost use Rattle.plan_parts.specs.BallEntries.{eject_pulse, later_lists, entry_mentions, target_of, is_known};
ghost use Rattle.plan_parts.specs.Devices.{texts};
ghost use Rattle.plan_parts.specs.Gives.{Gives, ball_device_gives, settings_of_ball_device};
ghost use Rattle.plan_parts.specs.Lists.{with_last};
ghost use Rattle.plan_parts.specs.RowViews.{bytes_view, names_view};
ghost use Rattle.plan_parts.specs.View.{pieces_text};

use crate::collect_coils::{defaults_of, own_pulse};
use crate::effects::{Effect, EffectLists, do_in_next, post, post_in_next};
use crate::names::{NamePieces, join_pieces, whole};
use crate::row_parts::{RowHead, RowParts, add};
use machine_definitions::Definitions;
use mpf_config::{BallDeviceEntry, Content, GAME_NAME, Name, NameAt, Section};
use plan_rows::Destination;
use plan_tables::devices::{BallSettings, BallTarget, RowId, Settings};
use std::alloc::AllocError;

/// A ball device, with where it ejects its balls to.
pub(crate) fn collect_ball_device<'a>(
    parts: &mut RowParts<'a>,
    definitions: &Definitions<'_>,
    row: BallDeviceEntry<'a>,
    to: Destination,
) -> Result<(), AllocError>
    requires few { length row.switches.now ≤ 16 }
    ensures { OnOk result (Gives parts.old parts.new (ball_device_gives definitions.now.machine row.entry to)) }
{
    let drain = drains(definitions, row);
    parts.unknown = !is_known(to);
    parts.head = RowHead::Device(ball_settings(row, to));
    collect_switches(&mut parts.listens, row.switches)?;
    collect_mentions(&mut parts.other_mentions, &row.name.text, drain)?;
    collect_lists(&mut parts.lists, definitions, row, drain)
}

/// Whether there is such a destination.
fn is_known(to: Destination) -> bool
    ensures { result ≡ is_known to }
{
    match to {
        Destination::Playfield | Destination::Device(_) => true,
        Destination::Unknown => false,
    }
}

/// Its ball switches, in order.
fn collect_switches<'a>(listens: &mut Vec<&'a [u8]>, switches: &'a [Name]) -> Result<(), AllocError>
    ensures { OnOk result (bytes_view listens.new.items
        ≡ bytes_view listens.old.items ++ texts (map name_view switches.now)) }
{
    for switch in switches {
        add(listens, switch.text.as_slice())?;
    }
    Ok(())
}

// ---- the game

/// Whether a ball that enters the device, and was not on its way there, has drained: it is tagged `drain`, and there is
/// a game.
fn drains(definitions: &Definitions<'_>, row: BallDeviceEntry<'_>) -> bool
    ensures { result ≡ drains definitions.now.machine (ball_device_view row.entry) }
{
    row.is_drain() && has_game(&definitions.config().machine.sections)
}

/// Whether one of these sections is `game`.
fn has_game(sections: &[Section]) -> bool
    ensures { result ≡ has_game (section_rows sections.now) }
{
    sections.iter().any(|section| is_game(section))
}

fn is_game(section: &Section) -> bool
    ensures { result ≡ is_game (section_view section.now) }
{
    match &section.content {
        Content::Entry(_) => section.name.as_slice() == GAME_NAME,
        _ => false,
    }
}

// ---- settings

/// The target, in the plan. There is no plan if a row has a number above 1,023, or if the destination is unknown.
fn target_of(to: Destination) -> BallTarget
    ensures { result ≡ target_of to }
{
    match to {
        Destination::Device(row) => BallTarget::Device(RowId(row.min(0xffff) as u16)),
        Destination::Playfield | Destination::Unknown => BallTarget::Playfield,
    }
}

fn ball_settings(row: BallDeviceEntry<'_>, to: Destination) -> Settings
    requires few { length row.switches.now ≤ 16 }
    ensures { result ≡ settings_of_ball_device row.entry to }
{
    Settings::BallDevice(BallSettings {
        switches: row.switches.len() as u8,
        target: target_of(to),
        has_coil: row.eject_coil.is_some(),
        ejects: row.ejects,
        trough: row.is_trough(),
        home: row.is_home(),
    })
}

// ---- effect lists

/// An event of the ball device of this name.
fn ball_event<'a>(name: &'a [u8], end: &'static [u8]) -> NamePieces<'a>
    ensures { pieces_text result ≡ ball_event name.now end.now }
{
    join_pieces(b"balldevice_", name, end)
}

/// The events of its first list: of a ball that enters, and of a drained ball, if a ball that enters drains.
fn collect_mentions<'a>(
    other_mentions: &mut Vec<NamePieces<'a>>,
    name: &'a [u8],
    drain: bool,
) -> Result<(), AllocError>
    ensures { OnOk result (names_view other_mentions.new.items
        ≡ names_view other_mentions.old.items ++ entry_mentions name.now drain) }
{
    add(other_mentions, ball_event(name, b"_ball_enter"))?;
    if drain {
        return add(other_mentions, whole(b"ball_drain"));
    }
    Ok(())
}

/// What its effect lists do.
fn collect_lists<'a>(
    lists: &mut EffectLists<'a>,
    definitions: &Definitions<'_>,
    row: BallDeviceEntry<'a>,
    drain: bool,
) -> Result<(), AllocError>
    requires drains { drain ≡ drains definitions.now.machine (ball_device_view row) }
    ensures { OnOk result (lists.new ≡ lists.old ++ ball_lists definitions.now.machine (ball_device_view row.entry)) }
{
    let name = row.name.text.as_slice();
    do_in_next(
        lists,
        Effect::Enter(ball_event(name, b"_ball_enter"), drain),
    )?;
    collect_attempt(lists, definitions, name, row.eject_coil)?;
    collect_later(lists, name)
}

/// What it does when it attempts to eject a ball.
fn collect_attempt<'a>(
    lists: &mut EffectLists<'a>,
    definitions: &Definitions<'_>,
    name: &'a [u8],
    coil: Option<NameAt<'a>>,
) -> Result<(), AllocError>
    ensures { OnOk result (lists.new ≡ lists.old
        ++ attempt_effects definitions.now.machine name.now (option_map name_at_view coil.entry) ∷ []) }
{
    post_in_next(lists, ball_event(name, b"_ball_eject_attempt"))?;
    post(lists, ball_event(name, b"_ejecting_ball"))?;
    collect_pulse(lists, definitions, coil)
}

/// The coil that ejects a ball is pulsed, if there is one.
fn collect_pulse<'a>(
    lists: &mut EffectLists<'a>,
    definitions: &Definitions<'_>,
    coil: Option<NameAt<'a>>,
) -> Result<(), AllocError>
    ensures { OnOk result (lists.new ≡ with_last
        (eject_pulse definitions.now.machine (option_map name_at_view coil.entry)) lists.old) }
{
    match coil {
        Some(name) => {
            let pulse = own_pulse(defaults_of(definitions, name.text));
            lists.add(Effect::Coil(name.text, pulse))
        }
        None => Ok(()),
    }
}

/// What it does after an attempt to eject a ball.
fn collect_later<'a>(lists: &mut EffectLists<'a>, name: &'a [u8]) -> Result<(), AllocError>
    ensures { OnOk result (lists.new ≡ lists.old ++ later_lists name.now) }
{
    do_in_next(lists, Effect::Leave)?;
    do_in_next(lists, Effect::Lose)?;
    post_in_next(lists, ball_event(name, b"_ball_eject_success"))?;
    do_in_next(lists, Effect::Arrive)?;
    post_in_next(lists, ball_event(name, b"_ball_eject_failed"))
}
