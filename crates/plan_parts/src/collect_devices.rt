//! What the entries of devices give to a plan: counters, accruals, sequences and timers; and those of other devices.

ghost use Rattle.std.specs.Prelude.{◌≡◌, ◌++◌, ◌∷◌, [], map, OnOk};
ghost use Rattle.mpf_sections.specs.Typed.{control_of, controls_of, with_control};
ghost use Rattle.mpf_sections.specs.View.{block_view, fields_view, name_view, step_view};
ghost use Rattle.plan_parts.specs.DeviceEntries.{block_acts, block_event, block_lists, control_act, act_of_control};
ghost use Rattle.plan_parts.specs.DeviceEntries.{or_own, step_acts, timer_event, timer_lists};
ghost use Rattle.plan_parts.specs.Devices.{acts};
ghost use Rattle.plan_parts.specs.Effects.{posts};
ghost use Rattle.plan_parts.specs.Gives.{AddsBlock, AddsDevice, Gives, counter_in, device_entry_gives};
ghost use Rattle.plan_parts.specs.Gives.{settings_of_steps, step_block_in, timer_in};
ghost use Rattle.plan_parts.specs.RowViews.{acts_view};
ghost use Rattle.plan_parts.specs.View.{pieces_text};

use crate::collect_handled::{collect_acts, collect_names};
use crate::collect_saves::collect_save_device;
use crate::effects::{EffectLists, post, post_each, post_in_next};
use crate::names::{NamePieces, join_pieces, whole};
use crate::row_parts::{HandledName, RowHead, RowParts, add};
use machine_settings::StepSettings;
use mpf_config::config::ControlAction;
use mpf_config::{
    ACCRUALS_NAME, BlockEvents, COUNTERS_NAME, CounterEntry, Entry, Fields, Name, SEQUENCES_NAME,
    StepBlock, TIMERS_NAME, TimerEntry, as_control, as_counter, as_step_block, as_timer,
};
use plan_rows::is_none;
use plan_tables::devices::{Act, Settings};
use setting_values::values::Step;
use std::alloc::AllocError;

/// What an entry gives if it is a device.
#[tactic(auto, unfolding(crate::specs::DeviceEntries::device_of))]
pub(crate) fn collect_device<'a>(
    parts: &mut RowParts<'a>,
    section: &[u8],
    entry: &'a Entry,
) -> Result<(), AllocError>
    ensures { OnOk result (Gives parts.old parts.new (device_entry_gives section.now entry.now)) }
{
    if section == COUNTERS_NAME {
        return collect_counter(parts, as_counter(entry));
    }
    if section == ACCRUALS_NAME {
        let row = as_step_block(entry);
        return collect_step_block(parts, Settings::Accrual(step_settings(row)), row);
    }
    if section == SEQUENCES_NAME {
        let row = as_step_block(entry);
        return collect_step_block(parts, Settings::Sequence(step_settings(row)), row);
    }
    if section == TIMERS_NAME {
        return collect_timer(parts, as_timer(entry));
    }
    collect_save_device(parts, section, entry)
}

// ---- logic blocks

/// Adds what all kinds of blocks have: what enables, disables, resets and restarts it; the events that its settings
/// name; and what its effect lists post.
fn collect_block<'a>(
    parts: &mut RowParts<'a>,
    name: &'a [u8],
    block: BlockEvents<'a>,
) -> Result<(), AllocError>
    ensures { OnOk result (AddsBlock parts.old parts.new name.now block.entry) }
{
    collect_block_acts(&mut parts.event_acts, block)?;
    collect_names(&mut parts.other_mentions, block.hit)?;
    collect_names(&mut parts.other_mentions, block.complete)?;
    collect_block_lists(&mut parts.lists, name, block)
}

/// What enables a block, disables, resets and restarts it.
fn collect_block_acts<'a>(
    event_acts: &mut Vec<(HandledName<'a>, Act)>,
    block: BlockEvents<'a>,
) -> Result<(), AllocError>
    ensures { OnOk result (acts_view event_acts.new.items
        ≡ acts_view event_acts.old.items ++ block_acts (block_view block.entry)) }
{
    collect_acts(event_acts, Act::Enable, block.enables)?;
    collect_acts(event_acts, Act::Disable, block.disables)?;
    collect_acts(event_acts, Act::Reset, block.resets)?;
    collect_acts(event_acts, Act::Restart, block.restarts)
}

/// An event of the block of this name.
fn block_event<'a>(name: &'a [u8], end: &'static [u8]) -> NamePieces<'a>
    ensures { pieces_text result ≡ block_event name.now end.now }
{
    join_pieces(b"logicblock_", name, end)
}

/// What a block posts when its value changes, when it is hit, and when it completes.
fn collect_block_lists<'a>(
    lists: &mut EffectLists<'a>,
    name: &'a [u8],
    block: BlockEvents<'a>,
) -> Result<(), AllocError>
    ensures { OnOk result (lists.new ≡ lists.old ++ block_lists name.now (block_view block.entry)) }
{
    post_in_next(lists, block_event(name, b"_updated"))?;
    collect_list(lists, block.hit, block_event(name, b"_hit"))?;
    collect_list(lists, block.complete, block_event(name, b"_complete"))
}

/// The next effect list posts the events that are written, or its own if none is.
fn collect_list<'a>(
    lists: &mut EffectLists<'a>,
    names: &'a [Name],
    own: NamePieces<'a>,
) -> Result<(), AllocError>
    ensures { OnOk result (lists.new ≡ lists.old ++ map posts (or_own (map name_view names.now) (pieces_text own.entry))
        ∷ []) }
{
    lists.begin()?;
    if is_none(names) {
        return post(lists, own);
    }
    post_each(lists, names)
}

// ---- `counters`

/// A counter.
fn collect_counter<'a>(parts: &mut RowParts<'a>, row: CounterEntry<'a>) -> Result<(), AllocError>
    ensures { OnOk result (AddsDevice parts.old parts.new (counter_in row.entry)) }
{
    parts.head = RowHead::Device(Settings::Counter(row.settings));
    collect_acts(&mut parts.event_acts, Act::Count, row.counts)?;
    collect_block(parts, &row.name.text, row.block)
}

// ---- `accruals` and `sequences`

fn step_settings(row: StepBlock<'_>) -> StepSettings
    ensures { result ≡ settings_of_steps row.entry }
{
    StepSettings {
        block: row.settings,
        steps: row.steps.len(),
    }
}

/// An accrual or a sequence, with these settings.
fn collect_step_block<'a>(
    parts: &mut RowParts<'a>,
    settings: Settings,
    row: StepBlock<'a>,
) -> Result<(), AllocError>
    ensures { OnOk result (AddsDevice parts.old parts.new (step_block_in settings row.entry)) }
{
    parts.head = RowHead::Device(settings);
    collect_steps(&mut parts.event_acts, row.steps)?;
    collect_block(parts, &row.name.text, row.block)
}

/// The events of each step, which do it.
fn collect_steps<'a>(
    event_acts: &mut Vec<(HandledName<'a>, Act)>,
    steps: &'a [Step],
) -> Result<(), AllocError>
    ensures { OnOk result (acts_view event_acts.new.items
        ≡ acts_view event_acts.old.items ++ step_acts 0 (map step_view steps.now)) }
{
    for number in 0..steps.len() {
        collect_step(event_acts, Act::Step(number), &steps[number])?;
    }
    Ok(())
}

/// The events of a step, each of which does this.
fn collect_step<'a>(
    event_acts: &mut Vec<(HandledName<'a>, Act)>,
    act: Act,
    step: &'a Step,
) -> Result<(), AllocError>
    ensures { OnOk result (acts_view event_acts.new.items
        ≡ acts_view event_acts.old.items ++ acts act (step_view step.now)) }
{
    match step {
        Step::Always(name) => add(event_acts, (HandledName::always(whole(&name.text)), act)),
        Step::AnyOf(handlers) => collect_acts(event_acts, act, handlers),
    }
}

// ---- `timers`

/// A timer.
fn collect_timer<'a>(parts: &mut RowParts<'a>, row: TimerEntry<'a>) -> Result<(), AllocError>
    ensures { OnOk result (AddsDevice parts.old parts.new (timer_in row.entry)) }
{
    parts.head = RowHead::Device(Settings::Timer(row.settings));
    collect_timer_acts(&mut parts.event_acts, row.controls)?;
    collect_timer_lists(&mut parts.lists, &row.name.text)
}

/// What the events do that control a timer.
fn collect_timer_acts<'a>(
    event_acts: &mut Vec<(HandledName<'a>, Act)>,
    maps: &'a [Fields],
) -> Result<(), AllocError>
    ensures { OnOk result (acts_view event_acts.new.items
        ≡ acts_view event_acts.old.items ++ map act_of_control (controls_of (map fields_view maps.now))) }
{
    for fields in maps {
        collect_control(event_acts, fields)?;
    }
    Ok(())
}

fn collect_control<'a>(
    event_acts: &mut Vec<(HandledName<'a>, Act)>,
    fields: &'a Fields,
) -> Result<(), AllocError>
    ensures { OnOk result (acts_view event_acts.new.items
        ≡ acts_view event_acts.old.items ++ map act_of_control
        (with_control (control_of (fields_view fields.now)) [])) }
{
    let Some(control) = as_control(fields) else {
        return Ok(());
    };
    let act = control_act(control.action, control.value);
    add(event_acts, (HandledName::as_written(control.event), act))
}

/// What a control does, with its value.
fn control_act(action: ControlAction, value: i64) -> Act
    ensures { result ≡ control_act action value }
{
    match action {
        ControlAction::Start => Act::Start,
        ControlAction::Stop => Act::Stop,
        ControlAction::Pause => Act::Pause,
        ControlAction::Reset => Act::Reset,
        ControlAction::Restart => Act::Restart,
        ControlAction::Add => Act::Add(value),
        ControlAction::Subtract => Act::Subtract(value),
        ControlAction::Jump => Act::Jump(value),
    }
}

/// An event of the timer of this name.
fn timer_event<'a>(name: &'a [u8], end: &'static [u8]) -> NamePieces<'a>
    ensures { pieces_text result ≡ timer_event name.now end.now }
{
    join_pieces(b"timer_", name, end)
}

/// What a timer posts when it starts, stops, pauses, ticks and completes.
fn collect_timer_lists<'a>(lists: &mut EffectLists<'a>, name: &'a [u8]) -> Result<(), AllocError>
    ensures { OnOk result (lists.new ≡ lists.old ++ timer_lists name.now) }
{
    post_in_next(lists, timer_event(name, b"_started"))?;
    post_in_next(lists, timer_event(name, b"_stopped"))?;
    post_in_next(lists, timer_event(name, b"_paused"))?;
    post_in_next(lists, timer_event(name, b"_tick"))?;
    post_in_next(lists, timer_event(name, b"_complete"))
}
