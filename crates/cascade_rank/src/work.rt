//! The event that the machine itself posts next, at an event of a mode.

ghost use Rattle.std.specs.Prelude.{◌≡◌, ◌<◌, length, IfSome};
ghost use Rattle.plan_tables.specs.declared.entries.Work.TheVariants as works;
ghost use Rattle.plan_tables.specs.PlanView.{work_of};
ghost use Rattle.plan_tables.specs.Valid.{IsValid};
ghost use Rattle.cascade_rank.specs.Cost.{led_by, led_by_stopped};

use plan_tables::{EventId, GameEvent, ModeEvent, ModeId, Plan, Work};

/// The event that the machine itself posts as its work at an event of a mode, if it posts one.
pub(crate) fn led_by(plan: &Plan, event: EventId) -> Option<EventId>
    requires { event.0 < length plan.now.events }
    ensures leads { result ≡ led_by plan.now (work_of plan.now event) }
    ensures within { IfSome result (λ e. e.0 < length plan.now.events) }
    ensures valid { IsValid plan.now }
{
    match plan.work(event) {
        Work::Nothing => None,
        Work::Mode(mode, which) => next_event(plan, mode, which),
        Work::Game(_) => None,
    }
}

/// The event with which a mode goes on from this one, if it goes on. From `started` it goes on
/// if a stop was kept. From `stopped` it goes on to `ball_ended`, if it may hold the end of the ball.
fn next_event(plan: &Plan, mode: ModeId, which: ModeEvent) -> Option<EventId>
    requires { mode.0 < length plan.now.modes }
    ensures leads { result ≡ led_by plan.now (works.Mode mode which) }
    ensures within { IfSome result (λ e. e.0 < length plan.now.events) }
{
    let events = plan.mode(mode).events;
    match which {
        ModeEvent::WillStart => Some(events.starting),
        ModeEvent::Starting => Some(events.started),
        ModeEvent::Started => Some(events.stopping),
        ModeEvent::Stopping => Some(events.stopped),
        ModeEvent::Stopped => end_of_ball(plan, mode),
    }
}

/// The event `ball_ended`, if the mode may hold the end of the ball.
fn end_of_ball(plan: &Plan, mode: ModeId) -> Option<EventId>
    requires { mode.0 < length plan.now.modes }
    ensures leads { result ≡ led_by_stopped plan.now mode }
    ensures within { IfSome result (λ e. e.0 < length plan.now.events) }
{
    if plan.may_hold_ball_end(mode) {
        Some(plan.game_event(GameEvent::BallEnded))
    } else {
        None
    }
}
