//! The kinds of devices. Each function here matches on the kind.

ghost use Rattle.std.specs.Prelude.{◌≡◌, ◌↔◌, IsTrue, length, map};
ghost use Rattle.plan_tables.specs.Devices.{IsWithinLimits};
ghost use Rattle.device_objects.specs.Laws.{HasShape};
ghost use Rattle.device_objects.specs.DeviceStep.{first_state, outcomes};

use crate::accrual::{are_same_accruals, first_accruals, have_marks, of_accrual};
use crate::answers::{Outcomes, none, silent};
use crate::autofire::{first_autofire, is_same_autofire, of_autofire};
use crate::ball_device::{
    first_ball_device, is_of_ball_device, is_same_ball_kind, is_same_ball_state, of_ball_device,
};
use crate::ball_save::{
    are_same_save_settings, first_save, is_of_save, is_same_save_state, of_save,
};
use crate::bank::{are_of_bank, are_same_banks, first_banks, is_same_bank_kind, of_bank};
use crate::counter::{are_same_counter_settings, are_same_counters, first_counters, of_counter};
use crate::device::Call;
use crate::flipper::{first_flipper, is_same_flipper, of_flipper};
use crate::multiball::{
    are_same_multiball_settings, first_multiball, is_same_multiball_state, of_multiball,
};
use crate::same::are_same_step_settings;
use crate::sequence::{are_same_sequences, first_sequences, of_sequence};
use crate::state::DeviceState;
use crate::timer::{are_same_timer_settings, first_timer, is_same_timer, of_timer};
use plan_tables::Settings;

/// The state that a device of these settings has at first.
pub fn first_state(settings: &Settings) -> DeviceState
    ensures { result ≡ first_state settings.now }
{
    match settings {
        Settings::Counter(counter) => DeviceState::Counter(first_counters(counter)),
        Settings::Accrual(accrual) => DeviceState::Accrual(first_accruals(accrual)),
        Settings::Sequence(sequence) => DeviceState::Sequence(first_sequences(sequence)),
        Settings::Timer(timer) => DeviceState::Timer(first_timer(timer)),
        Settings::Bank(bank) => DeviceState::Bank(first_banks(bank)),
        Settings::Flipper => DeviceState::Flipper(first_flipper()),
        Settings::Autofire => DeviceState::Autofire(first_autofire()),
        Settings::BallDevice(_) => DeviceState::BallDevice(first_ball_device()),
        Settings::BallSave(_) => DeviceState::BallSave(first_save()),
        Settings::Multiball(_) => DeviceState::Multiball(first_multiball()),
    }
}

/// What a call of a device of these settings can answer.
pub fn outcomes(settings: &Settings, call: Call) -> Outcomes
    requires { IsWithinLimits settings.now }
    ensures { map (λ o. o.items) result.items ≡ outcomes settings.now call }
{
    match (settings, call) {
        (Settings::Counter(counter), Call::Act(act)) => of_counter(counter, act),
        (Settings::Accrual(accrual), Call::Act(act)) => of_accrual(accrual, act),
        (Settings::Sequence(sequence), Call::Act(act)) => of_sequence(sequence, act),
        (Settings::Timer(timer), call) => of_timer(timer, call),
        (Settings::Bank(bank), Call::Act(act)) => of_bank(bank, act),
        (Settings::Flipper, Call::Act(act)) => of_flipper(act),
        (Settings::Autofire, Call::Act(act)) => of_autofire(act),
        (Settings::BallDevice(device), call) => of_ball_device(device, call),
        (Settings::BallSave(save), call) => of_save(save, call),
        (Settings::Multiball(_), Call::Act(act)) => of_multiball(act),
        (_, Call::Fire) => none(),
        _ => silent(),
    }
}

/// Whether a state is of the shape that these settings ask for: of their kind, and such that what the device
/// acts on is within the settings.
pub fn has_shape(settings: &Settings, state: &DeviceState) -> bool
    ensures { IsTrue result ↔ HasShape settings.now state.now }
{
    match (settings, state) {
        (Settings::Counter(_), DeviceState::Counter(slots)) => are_four(slots),
        (Settings::Accrual(_), DeviceState::Accrual(slots)) => are_four(slots) && have_marks(slots),
        (Settings::Sequence(_), DeviceState::Sequence(slots)) => are_four(slots),
        (Settings::Timer(_), DeviceState::Timer(_)) => true,
        (Settings::Bank(bank), DeviceState::Bank(slots)) => {
            are_four(slots) && are_of_bank(bank, slots)
        }
        (Settings::Flipper, DeviceState::Flipper(_)) => true,
        (Settings::Autofire, DeviceState::Autofire(_)) => true,
        (Settings::BallDevice(device), DeviceState::BallDevice(state)) => {
            is_of_ball_device(device, state)
        }
        (Settings::BallSave(save), DeviceState::BallSave(state)) => is_of_save(save, state),
        (Settings::Multiball(_), DeviceState::Multiball(_)) => true,
        _ => false,
    }
}

/// Whether there is a slot for each player.
fn are_four<S>(slots: &[S]) -> bool
    ensures { IsTrue result ↔ (length slots.now ≡ 4) }
{
    slots.len() == 4
}

/// Whether two states are the same.
pub fn is_same_state(a: &DeviceState, b: &DeviceState) -> bool
    ensures { IsTrue result ↔ (a.now ≡ b.now) }
{
    match (a, b) {
        (DeviceState::Counter(a), DeviceState::Counter(b)) => are_same_counters(a, b),
        (DeviceState::Accrual(a), DeviceState::Accrual(b)) => are_same_accruals(a, b),
        (DeviceState::Sequence(a), DeviceState::Sequence(b)) => are_same_sequences(a, b),
        (DeviceState::Timer(a), DeviceState::Timer(b)) => is_same_timer(a, b),
        (DeviceState::Bank(a), DeviceState::Bank(b)) => are_same_banks(a, b),
        (DeviceState::Flipper(a), DeviceState::Flipper(b)) => is_same_flipper(a, b),
        (DeviceState::Autofire(a), DeviceState::Autofire(b)) => is_same_autofire(a, b),
        (DeviceState::BallDevice(a), DeviceState::BallDevice(b)) => is_same_ball_state(a, b),
        (DeviceState::BallSave(a), DeviceState::BallSave(b)) => is_same_save_state(a, b),
        (DeviceState::Multiball(a), DeviceState::Multiball(b)) => { is_same_multiball_state(a, b) }
        _ => false,
    }
}

/// Whether two settings are the same.
pub(crate) fn is_same_settings(a: &Settings, b: &Settings) -> bool
    ensures { IsTrue result ↔ (a.now ≡ b.now) }
{
    match (a, b) {
        (Settings::Counter(a), Settings::Counter(b)) => are_same_counter_settings(a, b),
        (Settings::Accrual(a), Settings::Accrual(b)) => are_same_step_settings(a, b),
        (Settings::Sequence(a), Settings::Sequence(b)) => are_same_step_settings(a, b),
        (Settings::Timer(a), Settings::Timer(b)) => are_same_timer_settings(a, b),
        (Settings::Bank(a), Settings::Bank(b)) => is_same_bank_kind(a, b),
        (Settings::Flipper, Settings::Flipper) => true,
        (Settings::Autofire, Settings::Autofire) => true,
        (Settings::BallDevice(a), Settings::BallDevice(b)) => is_same_ball_kind(a, b),
        (Settings::BallSave(a), Settings::BallSave(b)) => are_same_save_settings(a, b),
        (Settings::Multiball(a), Settings::Multiball(b)) => are_same_multiball_settings(a, b),
        _ => false,
    }
}
