//! How a device ejects balls.

ghost use Rattle.std.specs.Prelude.{◌≡◌, ◌<◌, ◌≤◌, ◌^◌, ◌++◌, length, is_some, IfSome};
ghost use Rattle.arrayvec.specs.ArrayVec.{array_vec_len};
ghost use Rattle.device_objects.specs.BallDevice.{attempt, begin, can_begin, confirm, confirmation, end_eject, overdue};
ghost use Rattle.device_objects.specs.BallDevice.{lose_sight, may_try_again, next_number, request, stuck, time_out};

use crate::switches::has_ball;
use device_objects::ball_device::{
    ARRIVAL_LIST, ATTEMPT_LIST, EXIT_LIST, FAILURE_LIST, LOSS_LIST, SUCCESS_LIST,
};
use device_objects::{Attempt, BallState, Eject, GREATEST_ATTEMPT, Outcome};
use plan_tables::{BallSettings, BallTarget};

/// An answer with these lists.
pub(crate) fn answer(lists: &[u16]) -> Outcome
    requires { length lists.now ≤ 4 }
    ensures lists { result.items ≡ lists.now }
    ensures count { array_vec_len result ≡ length lists.now }
{
    let mut outcome = Outcome::new();
    let _ = outcome.try_extend_from_slice(lists);
    outcome
}

/// It attempts to eject a ball; the attempt has this number.
fn attempt(settings: &BallSettings, state: &mut BallState, number: u16, now: u64)
    requires { now < 2 ^ 40 }
    ensures { state.new ≡ (attempt settings.now number now state.old).0 }
{
    state.eject = Eject::Pulsing(Attempt {
        number,
        timeout: now + u64::from(settings.ejects.timeout),
    });
}

/// Whether it can begin to eject a ball.
fn can_begin(settings: &BallSettings, state: &BallState) -> bool
    ensures { result ≡ can_begin settings.now state.now }
{
    let idle = match state.eject {
        Eject::Idle => true,
        Eject::Pulsing(_) | Eject::Away(_) => false,
    };
    idle && has_ball(state) && settings.has_coil && (!settings.trough || state.wanted > 0)
}

/// It begins to eject a ball, if it can. Adds its list to the answer.
pub(crate) fn begin(
    settings: &BallSettings,
    state: &mut BallState,
    now: u64,
    lists: Outcome,
) -> Outcome
    requires moment { now < 2 ^ 40 }
    requires room { array_vec_len lists ≤ 3 }
    ensures state { state.new ≡ (begin settings.now now state.old).0 }
    ensures lists { result.items ≡ lists.items ++ (begin settings.now now state.old).1 }
{
    let mut lists = lists;
    if can_begin(settings, state) {
        attempt(settings, state, 1, now);
        lists.push(ATTEMPT_LIST);
    }
    lists
}

/// The number of the attempt after one of this number, if it may attempt once more. Without a limit
/// the number stays at the greatest once it is there.
fn next_attempt(settings: &BallSettings, number: u16) -> Option<u16>
    ensures may { is_some result ≡ may_try_again settings.now.ejects.max_attempts number }
    ensures next { IfSome result (λ next. next ≡ next_number settings.now.ejects.max_attempts number) }
{
    match settings.ejects.max_attempts {
        None => Some(number.saturating_add(1).min(GREATEST_ATTEMPT)),
        Some(most) if number < most => Some(number + 1),
        Some(_) => None,
    }
}

/// An attempt is over before the ball has left: it tries again, or gives up.
fn stuck(settings: &BallSettings, state: &mut BallState, now: u64, over: Attempt) -> Outcome
    requires { now < 2 ^ 40 }
    ensures state { state.new ≡ (stuck settings.now now over state.old).0 }
    ensures lists { result.items ≡ (stuck settings.now now over state.old).1 }
{
    if let Some(next) = next_attempt(settings, over.number) {
        attempt(settings, state, next, now);
        return answer(&[FAILURE_LIST, ATTEMPT_LIST]);
    }
    state.eject = Eject::Idle;
    state.wanted = 0;
    answer(&[FAILURE_LIST])
}

/// The eject is over: a trough is to eject one ball fewer.
fn end(state: &mut BallState)
    ensures { state.new ≡ end_eject state.old }
{
    state.eject = Eject::Idle;
    state.wanted = state.wanted.saturating_sub(1);
}

/// The lists of a ball that did not arrive in time.
fn overdue(target: BallTarget) -> Outcome
    ensures lists { result.items ≡ overdue target }
    ensures count { array_vec_len result ≤ 2 }
{
    match target {
        BallTarget::Playfield => answer(&[ARRIVAL_LIST, SUCCESS_LIST]),
        BallTarget::Device(_) => answer(&[ARRIVAL_LIST, FAILURE_LIST]),
    }
}

/// The lists of a ball that is where it should be: in the target device, or on the playfield.
fn confirmation(target: BallTarget) -> Outcome
    ensures lists { result.items ≡ confirmation target }
    ensures count { array_vec_len result ≤ 2 }
{
    match target {
        BallTarget::Playfield => answer(&[ARRIVAL_LIST, SUCCESS_LIST]),
        BallTarget::Device(_) => answer(&[SUCCESS_LIST]),
    }
}

/// The time of an attempt is over.
pub(crate) fn time_out(settings: &BallSettings, state: &mut BallState, now: u64) -> Outcome
    requires { now < 2 ^ 40 }
    ensures state { state.new ≡ (time_out settings.now now state.old.eject state.old).0 }
    ensures lists { result.items ≡ (time_out settings.now now state.old.eject state.old).1 }
{
    match state.eject {
        Eject::Idle => Outcome::new(),
        Eject::Pulsing(over) => stuck(settings, state, now, over),
        Eject::Away(_) => {
            end(state);
            begin(settings, state, now, overdue(settings.target))
        }
    }
}

/// A ball that is on its way has arrived.
pub(crate) fn confirm(settings: &BallSettings, state: &mut BallState, now: u64) -> Outcome
    requires { now < 2 ^ 40 }
    ensures state { state.new ≡ (confirm settings.now now state.old.eject state.old).0 }
    ensures lists { result.items ≡ (confirm settings.now now state.old.eject state.old).1 }
{
    match state.eject {
        Eject::Idle | Eject::Pulsing(_) => Outcome::new(),
        Eject::Away(_) => {
            end(state);
            begin(settings, state, now, confirmation(settings.target))
        }
    }
}

/// A ball is counted no more: the one that is ejected has left, or one is lost.
pub(crate) fn lose_sight(settings: &BallSettings, state: &mut BallState, now: u64) -> Outcome
    requires { now < 2 ^ 40 }
    ensures state { state.new ≡ (lose_sight settings.now now state.old.eject state.old).0 }
    ensures lists { result.items ≡ (lose_sight settings.now now state.old.eject state.old).1 }
{
    match state.eject {
        Eject::Pulsing(attempt) => {
            state.eject = Eject::Away(attempt);
            answer(&[EXIT_LIST])
        }
        Eject::Idle if settings.ejects.mechanical => {
            let timeout = now + u64::from(settings.ejects.timeout);
            state.eject = Eject::Away(Attempt { number: 1, timeout });
            answer(&[EXIT_LIST])
        }
        Eject::Idle | Eject::Away(_) => answer(&[LOSS_LIST]),
    }
}

/// A trough is to eject this many more balls, as far as 255 allows.
pub(crate) fn request(
    settings: &BallSettings,
    state: &mut BallState,
    balls: usize,
    now: u64,
) -> Outcome
    requires { now < 2 ^ 40 }
    ensures state { state.new ≡ (request settings.now balls now state.old).0 }
    ensures lists { result.items ≡ (request settings.now balls now state.old).1 }
{
    if !settings.trough {
        return Outcome::new();
    }
    state.wanted = usize::from(state.wanted).saturating_add(balls).min(255) as u8;
    begin(settings, state, now, Outcome::new())
}
