//! The lists of a ball device, what it is at first, what it can answer, its shape, and when two are the same.

ghost use Rattle.std.specs.Prelude.{◌≡◌, ◌+◌, ◌≤◌, ◌↔◌, ◌++◌, IsTrue, length, map};
ghost use Rattle.std.specs.List.{All};
ghost use Rattle.arrayvec.specs.ArrayVec.{array_vec_len};
ghost use Rattle.device_objects.specs.BallDevice.{HasBallShape, IsAttempt, IsEjectOf, confirmation, empty, ending};
ghost use Rattle.device_objects.specs.BallDevice.{first_state, may_begin, may_eject, of_attempt, of_ball_act};
ghost use Rattle.device_objects.specs.BallDevice.{of_ball_device, of_ball_fire, of_count, overdue};

use crate::answers::{Outcomes, none, silent, with, with_if};
use crate::device::{Call, Outcome};
use crate::state::{Attempt, BallState, BallSwitch, Eject, GREATEST_ATTEMPT};
use machine_settings::EjectSettings;
use plan_tables::{Act, BallSettings, BallTarget};

/// The list of a ball that has entered.
pub const ENTRY_LIST: u16 = 0;
/// The list of an attempt to eject a ball.
pub const ATTEMPT_LIST: u16 = 1;
/// The list of an ejected ball that has left.
pub const EXIT_LIST: u16 = 2;
/// The list of a ball that has left and was not ejected.
pub const LOSS_LIST: u16 = 3;
/// The list of an ejected ball that counts as being where it should be.
pub const SUCCESS_LIST: u16 = 4;
/// The list of a ball that was on its way and is on the playfield.
pub const ARRIVAL_LIST: u16 = 5;
/// The list of an attempt that has failed.
pub const FAILURE_LIST: u16 = 6;

/// The state of a ball device at first: no ball is counted, nothing is due, and nothing is ejected.
#[inline]
pub fn first_ball_device() -> BallState
    ensures { result ≡ first_state }
{
    BallState {
        switches: [BallSwitch {
            counted: false,
            due: None,
        }; 16],
        eject: Eject::Idle,
        wanted: 0,
    }
}

/// Whether a ball device can begin to eject a ball in some state.
fn may_begin(device: &BallSettings) -> bool
    ensures { result ≡ may_begin device.now }
{
    device.has_coil && device.switches > 0
}

/// Whether a ball can be on its way from the device in some state.
fn may_eject(device: &BallSettings) -> bool
    ensures { result ≡ may_eject device.now }
{
    device.has_coil || device.ejects.mechanical
}

/// These lists, after which the device can begin to eject a ball, or not.
fn with_ending(all: Outcomes, device: &BallSettings, lists: &[u16]) -> Outcomes
    requires room { array_vec_len all + 2 ≤ 33 }
    requires short { length lists.now ≤ 2 }
    ensures answers { map (λ o. o.items) result.items ≡ map (λ o. o.items) all.items ++ ending device.now lists.now }
    ensures count { array_vec_len result ≤ array_vec_len all + 2 }
{
    let all = with(all, lists);
    if !may_begin(device) {
        return all;
    }
    let mut begins = Outcome::new();
    let _ = begins.try_extend_from_slice(lists);
    begins.push(ATTEMPT_LIST);
    with(all, &begins)
}

/// A ball switch counts: a ball has entered, has left, or is lost.
fn of_count(device: &BallSettings) -> Outcomes
    ensures answers { map (λ o. o.items) result.items ≡ of_count device.now }
    ensures count { array_vec_len result ≤ 4 }
{
    let entry = with_ending(none(), device, &[ENTRY_LIST]);
    let exit = with_if(entry, may_eject(device), &[EXIT_LIST]);
    with(exit, &[LOSS_LIST])
}

/// An attempt is over, and another one begins, or it was the last.
fn with_attempt(all: Outcomes, device: &BallSettings) -> Outcomes
    requires room { array_vec_len all + 2 ≤ 33 }
    ensures answers { map (λ o. o.items) result.items ≡ map (λ o. o.items) all.items ++ of_attempt device.now }
    ensures count { array_vec_len result ≤ array_vec_len all + 2 }
{
    let goes_on = match device.ejects.max_attempts {
        None => true,
        Some(most) => 1 < most,
    };
    let all = with_if(all, goes_on, &[FAILURE_LIST, ATTEMPT_LIST]);
    with_if(all, device.ejects.max_attempts.is_some(), &[FAILURE_LIST])
}

/// The time is over in which a ball on its way was to arrive.
fn overdue(device: &BallSettings) -> &'static [u16]
    ensures lists { result.now ≡ overdue device.now.target }
    ensures short { length result.now ≤ 2 }
{
    match device.target {
        BallTarget::Playfield => &[ARRIVAL_LIST, SUCCESS_LIST],
        BallTarget::Device(_) => &[ARRIVAL_LIST, FAILURE_LIST],
    }
}

/// A ball on its way has arrived.
fn confirmation(device: &BallSettings) -> &'static [u16]
    ensures lists { result.now ≡ confirmation device.now.target }
    ensures short { length result.now ≤ 2 }
{
    match device.target {
        BallTarget::Playfield => &[ARRIVAL_LIST, SUCCESS_LIST],
        BallTarget::Device(_) => &[SUCCESS_LIST],
    }
}

fn of_ball_fire(device: &BallSettings) -> Outcomes
    ensures { map (λ o. o.items) result.items ≡ of_ball_fire device.now }
{
    let mut all = none();
    if device.switches > 0 {
        all = of_count(device);
    }
    if device.has_coil {
        all = with_attempt(all, device);
    }
    if may_eject(device) {
        all = with_ending(all, device, overdue(device));
    }
    all
}

fn of_ball_act(device: &BallSettings, act: Act) -> Outcomes
    ensures { map (λ o. o.items) result.items ≡ of_ball_act device.now act }
{
    match act {
        Act::Confirm if may_eject(device) => with_ending(silent(), device, confirmation(device)),
        Act::Request(_) => with_if(
            silent(),
            device.trough && may_begin(device),
            &[ATTEMPT_LIST],
        ),
        _ => silent(),
    }
}

pub(crate) fn of_ball_device(device: &BallSettings, call: Call) -> Outcomes
    ensures { map (λ o. o.items) result.items ≡ of_ball_device device.now call }
{
    match call {
        Call::ModeStart | Call::ModeStop => silent(),
        Call::Fire => of_ball_fire(device),
        Call::Act(act) => of_ball_act(device, act),
    }
}

/// Whether no ball counts at the ball switch, and nothing is due.
fn is_empty(switch: &BallSwitch) -> bool
    ensures { IsTrue result ↔ (switch.now ≡ empty) }
{
    !switch.counted && switch.due.is_none()
}

/// Whether these ball switches are empty.
fn are_empty(switches: &[BallSwitch]) -> bool
    ensures { IsTrue result ↔ All (λ b. b ≡ empty) switches.now }
{
    for switch in switches {
        if !is_empty(switch) {
            return false;
        }
    }
    true
}

/// Whether the device can make an attempt of this number.
fn is_attempt(device: &BallSettings, attempt: Attempt) -> bool
    ensures { IsTrue result ↔ IsAttempt device.now attempt.number }
{
    let most = device
        .ejects
        .max_attempts
        .unwrap_or(GREATEST_ATTEMPT)
        .max(1);
    1 <= attempt.number && attempt.number <= most
}

/// Whether the device can be as far with ejecting a ball.
fn is_eject(device: &BallSettings, eject: Eject) -> bool
    ensures { IsTrue result ↔ IsEjectOf device.now eject }
{
    match eject {
        Eject::Idle => true,
        Eject::Pulsing(attempt) => device.has_coil && is_attempt(device, attempt),
        Eject::Away(attempt) => {
            (device.has_coil || device.ejects.mechanical) && is_attempt(device, attempt)
        }
    }
}

/// Whether the state is of the shape that the ball device asks for.
pub(crate) fn is_of_ball_device(device: &BallSettings, state: &BallState) -> bool
    ensures { IsTrue result ↔ HasBallShape device.now state.now }
{
    let switches = usize::from(device.switches).min(16);
    are_empty(&state.switches[switches..]) && is_eject(device, state.eject)
}

fn is_same_target(a: BallTarget, b: BallTarget) -> bool
    ensures { IsTrue result ↔ (a ≡ b) }
{
    match (a, b) {
        (BallTarget::Playfield, BallTarget::Playfield) => true,
        (BallTarget::Device(a), BallTarget::Device(b)) => a.0 == b.0,
        _ => false,
    }
}

pub(crate) fn is_same_ball_kind(a: &BallSettings, b: &BallSettings) -> bool
    ensures { IsTrue result ↔ (a.now ≡ b.now) }
{
    a.switches == b.switches
        && is_same_target(a.target, b.target)
        && a.has_coil == b.has_coil
        && are_same_eject_settings(&a.ejects, &b.ejects)
        && a.trough == b.trough
        && a.home == b.home
}

fn are_same_eject_settings(a: &EjectSettings, b: &EjectSettings) -> bool
    ensures { IsTrue result ↔ (a.now ≡ b.now) }
{
    *a == *b
}

fn is_same_ball_switch(a: &BallSwitch, b: &BallSwitch) -> bool
    ensures { IsTrue result ↔ (a.now ≡ b.now) }
{
    a.counted == b.counted && a.due == b.due
}

fn are_same_ball_switches(a: &[BallSwitch; 16], b: &[BallSwitch; 16]) -> bool
    ensures { IsTrue result ↔ (a.now ≡ b.now) }
{
    for i in 0..16 {
        if !is_same_ball_switch(&a[i], &b[i]) {
            return false;
        }
    }
    true
}

fn is_same_attempt(a: &Attempt, b: &Attempt) -> bool
    ensures { IsTrue result ↔ (a.now ≡ b.now) }
{
    a.number == b.number && a.timeout == b.timeout
}

fn is_same_eject(a: &Eject, b: &Eject) -> bool
    ensures { IsTrue result ↔ (a.now ≡ b.now) }
{
    match (a, b) {
        (Eject::Idle, Eject::Idle) => true,
        (Eject::Pulsing(a), Eject::Pulsing(b)) => is_same_attempt(a, b),
        (Eject::Away(a), Eject::Away(b)) => is_same_attempt(a, b),
        _ => false,
    }
}

pub(crate) fn is_same_ball_state(a: &BallState, b: &BallState) -> bool
    ensures { IsTrue result ↔ (a.now ≡ b.now) }
{
    are_same_ball_switches(&a.switches, &b.switches)
        && is_same_eject(&a.eject, &b.eject)
        && a.wanted == b.wanted
}
