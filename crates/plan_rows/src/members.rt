//! What other entries say of the shots of a group.

ghost use Rattle.std.specs.Prelude.{◌≡◌, map, option_map, is_some};
ghost use Rattle.std.specs.List.{list_all};
ghost use Rattle.mpf_sections.specs.View.{shot_view, shot_group_view};
ghost use Rattle.machine_definitions.specs.Found.{profile_view};
ghost use Rattle.machine_definitions.specs.Shots.{shot_called};
ghost use Rattle.plan_rows.specs.Members.{is_none, flags, is_enabled, is_enabled_if, profile_if, first_profile};
ghost use Rattle.plan_rows.specs.Members.{members_of};
ghost use Rattle.plan_rows.specs.View.{members_view};
ghost use Rattle.plan_rows.specs.Gained.{written_names};

use machine_definitions::{Definitions, Profile};
use mpf_config::{Name, Shot, ShotGroup};
use mpf_tables::tables::DEFAULT_PROFILE;

/// What other entries say of the shots of a group. If nothing defines a shot, any value will do:
/// there is no plan then.
#[derive(Clone, Copy)]
pub struct Members<'d, 'a> {
    /// Whether each is enabled at first, by its number in the group.
    pub enabled: [bool; 16],
    /// Whether all are defined.
    pub all_known: bool,
    /// The profile of the first.
    pub profile: &'d Profile<'a>,
}

/// What is known of the shots of a group.
pub(crate) fn members_of<'d, 'a>(
    definitions: &'d Definitions<'a>,
    group: ShotGroup<'_>,
) -> Members<'d, 'a>
    ensures { members_view result ≡ members_of definitions.now (shot_group_view group.entry) }
{
    Members {
        enabled: enabled_of(definitions, group.shots),
        all_known: are_known(definitions, group.shots),
        profile: first_profile(definitions, group.shots),
    }
}

/// A flag for each of 16 shots, of which these are the first: whether it is enabled at first.
fn enabled_of(definitions: &Definitions<'_>, shots: &[Name]) -> [bool; 16]
    ensures { result ≡ flags (map (λ w. is_enabled_if (shot_called definitions.now w.text)) (written_names shots.now)) }
{
    let mut enabled = [false; 16];
    for number in 0..shots.len().min(16) {
        enabled[number] = is_enabled_if(definitions.shot(&shots[number].text));
    }
    enabled
}

/// Whether a shot is enabled at first: no event enables it.
pub fn is_enabled(shot: Shot<'_>) -> bool
    ensures { result ≡ is_enabled (shot_view shot.entry) }
{
    is_none(shot.enables)
}

fn is_enabled_if(shot: Option<Shot<'_>>) -> bool
    ensures { result ≡ is_enabled_if (option_map shot_view shot.entry) }
{
    match shot {
        Some(shot) => is_enabled(shot),
        None => false,
    }
}

/// Whether all these shots are defined.
fn are_known(definitions: &Definitions<'_>, shots: &[Name]) -> bool
    ensures { result ≡ list_all (λ w. is_some (shot_called definitions.now w.text)) (written_names shots.now) }
{
    for shot in shots {
        if definitions.shot(&shot.text).is_none() {
            return false;
        }
    }
    true
}

/// The profile of the first of these shots.
fn first_profile<'d, 'a>(definitions: &'d Definitions<'a>, shots: &[Name]) -> &'d Profile<'a>
    ensures { profile_view result.now ≡ first_profile definitions.now (written_names shots.now) }
{
    match shots.first() {
        Some(name) => profile_if(definitions, definitions.shot(&name.text)),
        None => profile_if(definitions, None),
    }
}

fn profile_if<'d, 'a>(definitions: &'d Definitions<'a>, shot: Option<Shot<'_>>) -> &'d Profile<'a>
    ensures { profile_view result.now ≡ profile_if definitions.now (option_map shot_view shot.entry) }
{
    match shot {
        Some(shot) => definitions.profile(shot.profile.text),
        None => definitions.profile(DEFAULT_PROFILE),
    }
}

/// Whether there are none.
pub fn is_none<T>(items: &[T]) -> bool
    ensures { result ≡ is_none items.now }
{
    match items {
        [] => true,
        _ => false,
    }
}
