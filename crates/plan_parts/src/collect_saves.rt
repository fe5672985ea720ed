//! What the entries of ball saves and multiballs give to a plan.

ghost use Rattle.std.specs.Prelude.{◌≡◌, ◌++◌, OnOk};
ghost use Rattle.plan_parts.specs.Gives.{AddsDevice, Gives, ball_save_in, multiball_in, save_entry_gives};
ghost use Rattle.plan_parts.specs.SaveEntries.{save_event, save_lists, multiball_event, multiball_lists};
ghost use Rattle.plan_parts.specs.View.{pieces_text};

use crate::collect_handled::collect_acts;
use crate::effects::{Effect, EffectLists, post_in_next};
use crate::names::{NamePieces, join_pieces};
use crate::row_parts::{RowHead, RowParts};
use mpf_config::{
    BALL_SAVES_NAME, BallSaveEntry, Entry, MULTIBALLS_NAME, MultiballEntry, as_ball_save,
    as_multiball,
};
use plan_tables::devices::{Act, Settings};
use std::alloc::AllocError;

/// What an entry gives if it is a ball save or a multiball.
#[tactic(auto, unfolding(crate::specs::SaveEntries::save_device_of))]
pub(crate) fn collect_save_device<'a>(
    parts: &mut RowParts<'a>,
    section: &[u8],
    entry: &'a Entry,
) -> Result<(), AllocError>
    ensures { OnOk result (Gives parts.old parts.new (save_entry_gives section.now entry.now)) }
{
    if section == BALL_SAVES_NAME {
        return collect_ball_save(parts, as_ball_save(entry));
    }
    if section == MULTIBALLS_NAME {
        return collect_multiball(parts, as_multiball(entry));
    }
    Ok(())
}

// ---- `ball_saves`

/// A ball save.
fn collect_ball_save<'a>(parts: &mut RowParts<'a>, row: BallSaveEntry<'a>) -> Result<(), AllocError>
    ensures { OnOk result (AddsDevice parts.old parts.new (ball_save_in row.entry)) }
{
    parts.head = RowHead::Device(Settings::BallSave(row.settings));
    collect_acts(&mut parts.event_acts, Act::Enable, row.enable_events)?;
    collect_acts(&mut parts.event_acts, Act::Disable, row.disable_events)?;
    collect_save_lists(&mut parts.lists, &row.name.text)
}

/// An event of the ball save of this name.
fn save_event<'a>(name: &'a [u8], end: &'static [u8]) -> NamePieces<'a>
    ensures { pieces_text result ≡ save_event name.now end.now }
{
    join_pieces(b"ball_save_", name, end)
}

/// What a ball save does when it becomes active, when it is no longer active, and when it saves a ball.
fn collect_save_lists<'a>(lists: &mut EffectLists<'a>, name: &'a [u8]) -> Result<(), AllocError>
    ensures { OnOk result (lists.new ≡ lists.old ++ save_lists name.now) }
{
    // SAVE_ENABLED, SAVE_DISABLED and SAVE_SAVING of `plan_tables`
    post_in_next(lists, save_event(name, b"_enabled"))?;
    post_in_next(lists, save_event(name, b"_disabled"))?;
    post_in_next(lists, save_event(name, b"_saving_ball"))?;
    lists.add(Effect::Request(1))
}

// ---- `multiballs`

/// A multiball.
fn collect_multiball<'a>(
    parts: &mut RowParts<'a>,
    row: MultiballEntry<'a>,
) -> Result<(), AllocError>
    ensures { OnOk result (AddsDevice parts.old parts.new (multiball_in row.entry)) }
{
    parts.head = RowHead::Device(Settings::Multiball(row.settings));
    collect_acts(&mut parts.event_acts, Act::Start, row.start_events)?;
    collect_multiball_lists(&mut parts.lists, &row.name.text, row.settings.balls)
}

/// An event of the multiball of this name.
fn multiball_event<'a>(name: &'a [u8], end: &'static [u8]) -> NamePieces<'a>
    ensures { pieces_text result ≡ multiball_event name.now end.now }
{
    join_pieces(b"multiball_", name, end)
}

/// What a multiball does when it starts, and when it ends.
fn collect_multiball_lists<'a>(
    lists: &mut EffectLists<'a>,
    name: &'a [u8],
    balls: u8,
) -> Result<(), AllocError>
    ensures { OnOk result (lists.new ≡ lists.old ++ multiball_lists name.now balls) }
{
    // MULTIBALL_STARTED and MULTIBALL_ENDED of `plan_tables`
    post_in_next(lists, multiball_event(name, b"_started"))?;
    lists.add(Effect::AddBalls(balls))?;
    post_in_next(lists, multiball_event(name, b"_ended"))
}
