//! What the entries of shots and of their groups give to a plan.

ghost use Rattle.std.specs.Prelude.{◌≡◌, ◌≤◌, ◌++◌, ◌∷◌, [], length, map, codes, option_map, OnOk};
ghost use Rattle.std.specs.List.{flat_map};
ghost use Rattle.machine_definitions.specs.Found.{profile_view};
ghost use Rattle.mpf_sections.specs.View.{name_at_view, name_view, shot_group_view, shot_view};
ghost use Rattle.plan_parts.specs.Devices.{texts};
ghost use Rattle.plan_parts.specs.Effects.{posts};
ghost use Rattle.plan_parts.specs.Gives.{AddsDevice, Gives, group_gives, lone_in, shot_gives};
ghost use Rattle.plan_parts.specs.RowViews.{acts_view};
ghost use Rattle.plan_parts.specs.ShotEntries.{bank_settings, group_acts, group_events, group_lists, shot_acts};
ghost use Rattle.plan_parts.specs.ShotEntries.{shot_events, shot_lists, state_lists, switch_hits};
ghost use Rattle.plan_parts.specs.View.{pieces_text};
ghost use Rattle.plan_rows.specs.Members.{flags};

use crate::collect_handled::collect_acts;
use crate::effects::{EffectLists, post, post_in_next};
use crate::names::{NamePieces, join_pieces};
use crate::row_parts::{HandledName, RowHead, RowParts, add};
use machine_definitions::Profile;
use mpf_config::{Name, NameAt, Shot, ShotGroup};
use plan_rows::{Members, Seat, is_enabled};
use plan_tables::devices::{Act, BankSettings, Settings};
use std::alloc::AllocError;

/// A shot. If it has a seat in a group, its events act on the row of the group; else it is a device of its own.
/// `is_known` says whether its profile is defined.
pub(crate) fn collect_shot<'a>(
    parts: &mut RowParts<'a>,
    row: Shot<'a>,
    seat: Option<Seat>,
    is_known: bool,
    profile: &Profile<'a>,
) -> Result<(), AllocError>
    ensures { OnOk result (Gives parts.old parts.new (shot_gives row.entry seat is_known profile.now)) }
{
    parts.unknown = !is_known;
    parts.mention = name_in(row.switch);
    match seat {
        Some(seat) => {
            parts.head = RowHead::Seat(seat.row);
            collect_shot_acts(&mut parts.event_acts, seat.shot, row)
        }
        None => collect_lone(parts, row, profile),
    }
}

/// The name of a switch, if there is one.
fn name_in<'a>(switch: Option<NameAt<'a>>) -> Option<&'a [u8]>
    ensures { option_map (λ n. n.now) result ≡ option_map (λ w. w.text) (option_map name_at_view switch.entry) }
{
    match switch {
        Some(name) => Some(name.text),
        None => None,
    }
}

/// A bank of one shot.
fn collect_lone<'a>(
    parts: &mut RowParts<'a>,
    row: Shot<'a>,
    profile: &Profile<'a>,
) -> Result<(), AllocError>
    ensures { OnOk result (AddsDevice parts.old parts.new (lone_in profile.now row.entry)) }
{
    parts.head = RowHead::Device(bank_settings(profile, 1, first_flag(is_enabled(row)), false));
    collect_shot_acts(&mut parts.event_acts, 0, row)?;
    collect_shot_lists(&mut parts.lists, profile, &row.name.text)
}

/// A group, with what is known of its shots.
pub(crate) fn collect_group<'a>(
    parts: &mut RowParts<'a>,
    row: ShotGroup<'a>,
    members: Members<'_, 'a>,
) -> Result<(), AllocError>
    requires few { length row.shots.now ≤ 16 }
    ensures { OnOk result (Gives parts.old parts.new (group_gives row.entry members.entry)) }
{
    let shots = row.shots.len() as u8;
    parts.unknown = !members.all_known;
    parts.head = RowHead::Device(bank_settings(members.profile, shots, members.enabled, true));
    collect_group_acts(&mut parts.event_acts, row)?;
    collect_group_lists(&mut parts.lists, members.profile, row)
}

/// A flag for each of 16 shots, of which this is the first.
fn first_flag(flag: bool) -> [bool; 16]
    ensures { result ≡ flags (flag ∷ []) }
{
    let mut flags = [false; 16];
    flags[0] = flag;
    flags
}

/// The settings of a bank of so many shots.
fn bank_settings(profile: &Profile<'_>, shots: u8, enabled: [bool; 16], group: bool) -> Settings
    ensures { result ≡ bank_settings (profile_view profile.now) shots enabled group }
{
    Settings::Bank(BankSettings {
        shots,
        enabled,
        last_state: profile.states.len().saturating_sub(1) as u8,
        advance_on_hit: profile.advance_on_hit,
        loops: profile.loops,
        group,
    })
}

// ---- events

/// What acts on the shot of this number in a bank.
fn collect_shot_acts<'a>(
    event_acts: &mut Vec<(HandledName<'a>, Act)>,
    number: usize,
    shot: Shot<'a>,
) -> Result<(), AllocError>
    ensures { OnOk result (acts_view event_acts.new.items
        ≡ acts_view event_acts.old.items ++ shot_acts number (shot_view shot.entry)) }
{
    collect_switch_hits(event_acts, Act::Hit(number), shot.switch)?;
    collect_acts(event_acts, Act::Hit(number), shot.hits)?;
    collect_acts(event_acts, Act::Advance(number), shot.advances)?;
    collect_acts(event_acts, Act::ResetShot(number), shot.resets)?;
    collect_acts(event_acts, Act::EnableShot(number), shot.enables)?;
    collect_acts(event_acts, Act::DisableShot(number), shot.disables)
}

/// The switch of a shot hits it when it becomes active.
fn collect_switch_hits<'a>(
    event_acts: &mut Vec<(HandledName<'a>, Act)>,
    hit: Act,
    switch: Option<NameAt<'a>>,
) -> Result<(), AllocError>
    ensures { OnOk result (acts_view event_acts.new.items
        ≡ acts_view event_acts.old.items ++ switch_hits hit (option_map name_at_view switch.entry)) }
{
    match switch {
        Some(name) => {
            let event = join_pieces(name.text, b"", b"_active");
            add(event_acts, (HandledName::always(event), hit))
        }
        None => Ok(()),
    }
}

/// What acts on a group.
fn collect_group_acts<'a>(
    event_acts: &mut Vec<(HandledName<'a>, Act)>,
    group: ShotGroup<'a>,
) -> Result<(), AllocError>
    ensures { OnOk result (acts_view event_acts.new.items
        ≡ acts_view event_acts.old.items ++ group_acts (shot_group_view group.entry)) }
{
    collect_acts(event_acts, Act::RotateRight, group.rotates)?;
    collect_acts(event_acts, Act::RotateRight, group.rotates_right)?;
    collect_acts(event_acts, Act::RotateLeft, group.rotates_left)?;
    collect_acts(event_acts, Act::Reset, group.resets)
}

// ---- effect lists

/// The effect lists of a group: of each of its shots, and its own.
fn collect_group_lists<'a>(
    lists: &mut EffectLists<'a>,
    profile: &Profile<'a>,
    group: ShotGroup<'a>,
) -> Result<(), AllocError>
    ensures { OnOk result (lists.new ≡ lists.old
        ++ group_lists (profile_view profile.now) (shot_group_view group.entry).name.text
        (texts (map name_view group.entry.shots.now))) }
{
    let name = group.name.text.as_slice();
    collect_each_shot(lists, profile, group.shots)?;
    collect_states(lists, profile, name, b"_hit")?;
    collect_states(lists, profile, name, b"_complete")
}

/// The effect lists of these shots.
fn collect_each_shot<'a>(
    lists: &mut EffectLists<'a>,
    profile: &Profile<'a>,
    shots: &'a [Name],
) -> Result<(), AllocError>
    ensures { OnOk result (lists.new ≡ lists.old
        ++ flat_map (shot_lists (profile_view profile.now)) (texts (map name_view shots.now))) }
{
    for shot in shots {
        collect_shot_lists(lists, profile, &shot.text)?;
    }
    Ok(())
}

/// The effect lists of the shot of this name, one for each state of its profile.
fn collect_shot_lists<'a>(
    lists: &mut EffectLists<'a>,
    profile: &Profile<'a>,
    name: &'a [u8],
) -> Result<(), AllocError>
    ensures { OnOk result (lists.new ≡ lists.old ++ shot_lists (profile_view profile.now) name.now) }
{
    for state in &profile.states {
        collect_shot_list(lists, name, profile.name, state)?;
    }
    Ok(())
}

/// What a shot posts in a state, in the next effect list.
fn collect_shot_list<'a>(
    lists: &mut EffectLists<'a>,
    name: &'a [u8],
    profile: &'a [u8],
    state: &'a [u8],
) -> Result<(), AllocError>
    ensures { OnOk result (lists.new ≡ lists.old ++ map posts (shot_events name.now profile.now state.now) ∷ []) }
{
    post_in_next(lists, join_pieces(name, b"", b"_hit"))?;
    post(lists, ending(name, profile, b"_hit"))?;
    post(lists, in_profile(name, profile, state))?;
    post(lists, ending(name, state, b"_hit"))
}

/// What a group posts in each state of its profile, with this ending.
fn collect_states<'a>(
    lists: &mut EffectLists<'a>,
    profile: &Profile<'a>,
    name: &'a [u8],
    end: &'static [u8],
) -> Result<(), AllocError>
    ensures { OnOk result (lists.new ≡ lists.old ++ state_lists end.now (profile_view profile.now) name.now) }
{
    for state in &profile.states {
        collect_group_list(lists, name, state, end)?;
    }
    Ok(())
}

/// What a group posts in a state, in the next effect list.
fn collect_group_list<'a>(
    lists: &mut EffectLists<'a>,
    name: &'a [u8],
    state: &'a [u8],
    end: &'static [u8],
) -> Result<(), AllocError>
    ensures { OnOk result (lists.new ≡ lists.old ++ map posts (group_events end.now name.now state.now) ∷ []) }
{
    post_in_next(lists, join_pieces(name, b"", end))?;
    post(lists, ending(name, state, end))
}

/// A name, `_`, another name, and an ending.
fn ending<'a>(name: &'a [u8], other: &'a [u8], end: &'static [u8]) -> NamePieces<'a>
    ensures { pieces_text result ≡ name.now ++ codes "_" ++ other.now ++ end.now }
{
    NamePieces {
        shot: b"",
        joint: b"",
        stem: name,
        front: b"_",
        middle: other,
        end,
    }
}

/// What a shot posts in a state, with the name of its profile.
fn in_profile<'a>(name: &'a [u8], profile: &'a [u8], state: &'a [u8]) -> NamePieces<'a>
    ensures { pieces_text result ≡ name.now ++ codes "_" ++ profile.now ++ codes "_" ++ state.now ++ codes "_hit" }
{
    NamePieces {
        shot: name,
        joint: b"_",
        stem: profile,
        front: b"_",
        middle: state,
        end: b"_hit",
    }
}
