//! The actions of effect lists. A parameter says whether they may tell another device.

ghost use Rattle.std.specs.Prelude.{◌≡◌, ◌<◌, true, length};
ghost use Rattle.plan_tables.specs.Valid.{HasGame, IsActionWithin, IsTargetThere};
ghost use Rattle.plan_tables.specs.PlanView.{target_of};
ghost use Rattle.written_machine.specs.Machine.{add_balls, do_action_by, drain_if, enter_ball};
ghost use Rattle.machine_core.specs.Balls.{IsTellingThere};
ghost use Rattle.machine_core.specs.Core.{CanCall, IsWithin, after};
ghost use Rattle.machine_core.specs.Goes.{AlwaysGoes, Tell};
ghost use Rattle.machine_core.specs.RareActions.{IsRare};

use crate::balls::BallCall;
use crate::core_state::Core;
use coil_guard::Command;
use device_objects::Device;
use plan_tables::{Action, BallTarget, EventId, GameEvent, Owner, Plan, RowId, Telling};

/// How another device is told of an action.
pub(crate) trait Tells {
    ghost tell: { Tell };

    /// Tells it to the device that is to know it.
    fn tell<D: Device>(core: &mut Core<'_, D>, telling: Telling)
        requires there { IsTellingThere (length core.old.plan.rows) telling }
        requires calls { CanCall core.old }
        requires room { IsWithin core.old.room (tell core.old.plan telling core.old.machine) }
        ensures { core.new ≡ after (tell core.old.plan telling) core.old };
}

/// An action. If another device is to know of it, that one is told last.
#[inline]
pub(crate) fn run_by<D: Device, T: Tells>(core: &mut Core<'_, D>, owner: Owner, action: &Action)
    requires action { IsActionWithin core.old.plan action.now }
    requires goes { AlwaysGoes T.tell }
    requires calls { CanCall core.old }
    requires room { IsWithin core.old.room
        (do_action_by core.old.plan (T.tell core.old.plan) owner action.now core.old.machine) }
    ensures { core.new ≡ after (do_action_by core.old.plan (T.tell core.old.plan) owner action.now) core.old }
{
    match *action {
        Action::Post(event) => core.post(owner, event),
        Action::Change {
            variable,
            action,
            number,
            event,
        } => core.change_variable(owner, variable, action, number, event),
        // A command or a booking needs room that is cleared first. Another function makes them, so
        // that the room is not cleared at each action.
        _ => run_rare_by::<D, T>(core, owner, action),
    }
}

/// The same, of an action that neither posts an event nor changes a variable.
#[inline(never)]
fn run_rare_by<D: Device, T: Tells>(core: &mut Core<'_, D>, owner: Owner, action: &Action)
    requires rare { IsRare action.now }
    requires action { IsActionWithin core.old.plan action.now }
    requires goes { AlwaysGoes T.tell }
    requires calls { CanCall core.old }
    requires room { IsWithin core.old.room
        (do_action_by core.old.plan (T.tell core.old.plan) owner action.now core.old.machine) }
    ensures { core.new ≡ after (do_action_by core.old.plan (T.tell core.old.plan) owner action.now) core.old }
{
    match *action {
        Action::Post(_) | Action::Change { .. } => unreachable!(),
        Action::Pulse { coil, ms, power } => core.ask(owner, Command::Pulse { coil, ms, power }),
        Action::Enable { coil, power } => core.ask(owner, Command::Enable { coil, power }),
        Action::Disable { coil } => core.ask(owner, Command::Disable { coil }),
        Action::Enter {
            device,
            event,
            drain,
        } => enter::<D, T>(core, owner, device, event, drain),
        Action::Leave { device } => {
            let target = target_of(core.plan(), device);
            core.book(owner, BallCall::Leave(device, target));
        }
        Action::Lose { device } => core.book(owner, BallCall::Lose(device)),
        Action::Arrive { device } => {
            let target = target_of(core.plan(), device);
            core.book(owner, BallCall::Arrive(target));
        }
        Action::Request { balls } => T::tell(core, Telling::Wanted(usize::from(balls))),
        Action::AddBalls { balls } => add_balls::<D, T>(core, balls),
    }
}

/// A ball enters a device: that is booked, and its event posted. If the ball was on its way
/// there, the device that ejected it is told; else it may have drained.
fn enter<D: Device, T: Tells>(
    core: &mut Core<'_, D>,
    owner: Owner,
    device: RowId,
    event: EventId,
    drain: bool,
)
    requires device { device.0 < length core.old.plan.rows }
    requires game { drain ≡ true → HasGame core.old.plan }
    requires goes { AlwaysGoes T.tell }
    requires calls { CanCall core.old }
    requires room { IsWithin core.old.room
        (enter_ball core.old.plan (T.tell core.old.plan) owner device event drain core.old.machine) }
    ensures { core.new ≡ after (enter_ball core.old.plan (T.tell core.old.plan) owner device event drain) core.old }
{
    let is_awaited = core.awaits(device);
    core.book(owner, BallCall::Enter(device));
    core.post(owner, event);
    if is_awaited {
        T::tell(core, Telling::Arrived(BallTarget::Device(device)));
    } else {
        post_drain(core, owner, drain);
    }
}

/// The event of a ball that drains is posted, if that is to be and a ball is on.
fn post_drain<D: Device>(core: &mut Core<'_, D>, owner: Owner, drain: bool)
    requires game { drain ≡ true → HasGame core.old.plan }
    requires room { IsWithin core.old.room (drain_if core.old.plan owner drain core.old.machine) }
    ensures { core.new ≡ after (drain_if core.old.plan owner drain) core.old }
{
    if drain && core.is_ball_on() {
        let event = core.plan().game_event(GameEvent::BallDrain);
        core.post(owner, event);
    }
}

/// At least so many balls are in play from now on, while a ball is on. Those that were missing are
/// wanted.
fn add_balls<D: Device, T: Tells>(core: &mut Core<'_, D>, balls: u8)
    requires calls { CanCall core.old }
    requires room { IsWithin core.old.room (add_balls (T.tell core.old.plan) balls core.old.machine) }
    ensures { core.new ≡ after (add_balls (T.tell core.old.plan) balls) core.old }
{
    let missing = core.add_balls(balls);
    if missing > 0 {
        T::tell(core, Telling::Wanted(missing));
    }
}

/// Where a ball device ejects its balls to.
fn target_of(plan: &Plan, device: RowId) -> BallTarget
    requires { device.0 < length plan.now.rows }
    ensures target { result ≡ target_of plan.now device }
    ensures there { IsTargetThere (length plan.now.rows) result }
{
    match plan.row(device).settings.target() {
        Some(target) => target,
        None => BallTarget::Playfield,
    }
}
