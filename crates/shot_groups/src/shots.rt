//! The states of a bank's shots, and what moves them.

ghost use Rattle.std.specs.Prelude.{◌≡◌, ◌<◌, ◌-◌, ◌==◌};
ghost use Rattle.std.specs.List.{list_all};
ghost use Rattle.plan_tables.specs.Devices.{IsWithinLimits};
ghost use Rattle.plan_tables.specs.declared.devices.Settings.TheVariants as kinds;
ghost use Rattle.device_objects.specs.Bank.{are_all_in, gone_on, is_complete, rotate_states};
ghost use Rattle.shot_groups.specs.Hit.{states_after_hit, lists_of_hit};

use device_objects::Outcome;
use device_objects::bank::{group_complete, hit_lists, next_state};
use plan_tables::BankSettings;

/// A shot goes on from this state.
pub(crate) fn go_on(settings: &BankSettings, states: &mut [u8; 16], shot: usize, state: u8)
    requires { shot < 16 }
    ensures { states.new ≡ gone_on settings.now shot state states.old }
{
    states[shot] = next_state(settings, state);
}

/// Whether all these shots are in this state.
fn are_in(state: u8, states: &[u8]) -> bool
    ensures { result ≡ list_all (λ s. s == state) states.now }
{
    states.iter().all(|s| *s == state)
}

/// Whether all shots are in this state.
fn are_all_in(settings: &BankSettings, state: u8, states: &[u8; 16]) -> bool
    requires { IsWithinLimits (kinds.Bank settings.now) }
    ensures { result ≡ are_all_in settings.now state states.now }
{
    are_in(state, &states[..usize::from(settings.shots)])
}

/// Whether a hit of a shot in this state, which left the states so, has completed the group.
fn is_complete(settings: &BankSettings, state: u8, states: &[u8; 16]) -> bool
    requires { IsWithinLimits (kinds.Bank settings.now) }
    ensures { result ≡ is_complete settings.now state states.now }
{
    let next = next_state(settings, state);
    settings.group && next != state && are_all_in(settings, next, states)
}

/// A shot is hit in this state, and goes on if hits move shots. Gives the lists of the hit.
pub(crate) fn hit(settings: &BankSettings, states: &mut [u8; 16], shot: usize, state: u8) -> Outcome
    requires limits { IsWithinLimits (kinds.Bank settings.now) }
    requires shot { shot < settings.now.shots }
    ensures states { states.new ≡ states_after_hit settings.now shot state states.old }
    ensures outcome { result.items ≡ lists_of_hit settings.now shot state states.old }
{
    let mut lists = hit_lists(settings, shot, state);
    if settings.advance_on_hit {
        go_on(settings, states, shot, state);
        if is_complete(settings, state, states) {
            lists.push(group_complete(settings, next_state(settings, state)));
        }
    }
    lists
}

/// Each shot's state goes to the next shot, and the last one's to the first.
pub(crate) fn rotate_right(settings: &BankSettings, states: &mut [u8; 16])
    requires { IsWithinLimits (kinds.Bank settings.now) }
    ensures { states.new ≡ rotate_states settings.now.shots (settings.now.shots - 1) states.old }
{
    if settings.shots > 0 {
        states[..usize::from(settings.shots)].rotate_right(1);
    }
}

/// Each shot's state goes to the shot before, and the first one's to the last.
pub(crate) fn rotate_left(settings: &BankSettings, states: &mut [u8; 16])
    requires { IsWithinLimits (kinds.Bank settings.now) }
    ensures { states.new ≡ rotate_states settings.now.shots 1 states.old }
{
    if settings.shots > 0 {
        states[..usize::from(settings.shots)].rotate_left(1);
    }
}
