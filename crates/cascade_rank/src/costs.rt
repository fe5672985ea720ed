//! One walk over what an event costs, for every measure.
//!
//! A change of a variable costs its line and the weight of the event that it posts. If a ball enters a device, either
//! it drains, or the device that ejected it is told: the greater of the two costs is added. If more balls are wanted,
//! that costs what the first trough answers.
//!
//! If an event of the game can go on in several ways, it costs the weights of the most expensive one. If it writes all
//! scores, it costs a line for each player there can be. If it asks for a ball, it costs what the first trough answers.
//! When a ball has drained, two of the ways are that a ball save saves it, and that all multiballs end. The condition
//! of a binding is taken as met.

ghost use Rattle.std.specs.Prelude.{◌≡◌, ◌<◌, true, length};
ghost use Rattle.std.specs.List.{All};
ghost use Rattle.plan_tables.specs.Valid.{HasGame, IsActionWithin, IsTargetThere, IsTargetWithin, IsBindingWithin};
ghost use Rattle.plan_tables.specs.Valid.{IsValid};
ghost use Rattle.plan_tables.specs.declared.entries.Action.TheVariants.{Enter};
ghost use Rattle.plan_tables.specs.declared.entries.Owner.TheVariants as owners;
ghost use Rattle.plan_tables.specs.Devices.{list_count};
ghost use Rattle.plan_tables.specs.PlanView.{bound_to, first_trough, multiball_rows, row_at, rows_of, save_rows};
ghost use Rattle.plan_tables.specs.PlanView.{work_of};
ghost use Rattle.plan_tables.specs.declared.devices.Act.TheVariants.{Save, End};
ghost use Rattle.device_objects.specs.declared.device.Call.TheVariants as calls;
ghost use Rattle.device_objects.specs.DeviceStep.{outcomes as outcomes_of};
ghost use Rattle.player_game.specs.Choices.{choices};
ghost use Rattle.cascade_rank.specs.Cost.{each_of, dearest_of, cost_of_drain, cost_of_action_by, cost_of_list_by};
ghost use Rattle.cascade_rank.specs.Cost.{cost_of_answer_by, cost_of_call_by, cost_of_told, cost_of_arrival};
ghost use Rattle.cascade_rank.specs.Cost.{cost_of_trough, cost_of_telling, cost_of_call, cost_of_target};
ghost use Rattle.cascade_rank.specs.Cost.{cost_of_binding, cost_of_devices, cost_of_starts, cost_of_stops};
ghost use Rattle.cascade_rank.specs.Cost.{cost_of_releases, cost_if_led, led_by, cost_of_choice, cost_of_scores};
ghost use Rattle.cascade_rank.specs.Cost.{cost_of_request, cost_of_drained_ball, cost_of_game, cost_of_work};
ghost use Rattle.cascade_rank.specs.Cost.{cost_of_event};
ghost use Rattle.cascade_rank.specs.Tellings.{IsTellingWithin};

use crate::measure::Measure;
use crate::releases::count_enabled;
use crate::tellings::{OneDevice, TellCost, Untold};
use crate::work::led_by;
use device_objects::{Call, outcomes};
use plan_tables::{
    Act, Action, BallTarget, Binding, EventId, GameEvent, ListId, ModeEvent, ModeId, Plan, RowId,
    Target, Telling, Work,
};
use player_game::{asks_for_ball, choices, is_drain, tells_scores};

/// An event: its line, all that is bound to it, and the machine's work.
pub(crate) fn measure_event<M: Measure>(measure: &mut M, plan: &Plan, event: EventId) -> M::Value
    requires { event.0 < length plan.now.events }
    ensures cost { M.Measures measure.old (cost_of_event plan.now event) measure.new result }
    ensures valid { IsValid plan.now }
{
    let line = measure.lines(1);
    let bound = measure_bound(measure, plan, event);
    let work = measure_work(measure, plan, event);
    let rest = measure.both(bound, work);
    measure.both(line, rest)
}

/// All that is bound to an event.
fn measure_bound<M: Measure>(measure: &mut M, plan: &Plan, event: EventId) -> M::Value
    requires { event.0 < length plan.now.events }
    ensures cost { M.Measures measure.old (each_of (cost_of_binding plan.now) (bound_to plan.now event)) measure.new
        result }
    ensures valid { IsValid plan.now }
{
    let mut total = measure.lines(0);
    for place in plan.bindings_of(event) {
        let cost = measure_binding(measure, plan, plan.binding(*place));
        total = measure.both(total, cost);
    }
    total
}

/// A binding: a step and its target, whether its condition is met or not.
fn measure_binding<M: Measure>(measure: &mut M, plan: &Plan, binding: Binding) -> M::Value
    requires { IsBindingWithin plan.now binding }
    ensures { M.Measures measure.old (cost_of_binding plan.now binding) measure.new result }
{
    let step = measure.step();
    let target = measure_target(measure, plan, binding.target);
    measure.both(step, target)
}

fn measure_target<M: Measure>(measure: &mut M, plan: &Plan, target: Target) -> M::Value
    requires { IsTargetWithin plan.now target }
    ensures { M.Measures measure.old (cost_of_target plan.now target) measure.new result }
{
    match target {
        Target::Run(list) => measure_list::<OneDevice, M>(measure, plan, list),
        Target::Start(mode) => measure.weight(plan.mode(mode).events.will_start),
        Target::Stop(mode) => measure.weight(plan.mode(mode).events.stopping),
        Target::Act(row, act) => measure_call::<OneDevice, M>(measure, plan, row, Call::Act(act)),
    }
}

/// A call of a device: a step, and the dearest of what it can answer.
pub(crate) fn measure_call<T: TellCost, M: Measure>(
    measure: &mut M,
    plan: &Plan,
    row: RowId,
    call: Call,
) -> M::Value
    requires { row.0 < length plan.now.rows }
    ensures { M.Measures measure.old (cost_of_call_by plan.now (T.cost plan.now) row call) measure.new result }
{
    let step = measure.step();
    let answers = measure_answers::<T, M>(measure, plan, row, call);
    measure.both(step, answers)
}

/// The dearest of what a call of a device can answer.
fn measure_answers<T: TellCost, M: Measure>(
    measure: &mut M,
    plan: &Plan,
    row: RowId,
    call: Call,
) -> M::Value
    requires { row.0 < length plan.now.rows }
    ensures { M.Measures measure.old (dearest_of (cost_of_answer_by plan.now (T.cost plan.now) row)
        (outcomes_of (row_at plan.now row).settings call)) measure.new result }
{
    let answers = outcomes(&plan.row(row).settings, call);
    let mut dearest = measure.lines(0);
    for answer in answers.as_slice() {
        let cost = measure_answer::<T, M>(measure, plan, row, answer.as_slice());
        dearest = measure.greater(dearest, cost);
    }
    dearest
}

/// The effect lists of a row that its device answers.
fn measure_answer<T: TellCost, M: Measure>(
    measure: &mut M,
    plan: &Plan,
    row: RowId,
    lists: &[u16],
) -> M::Value
    requires row { row.0 < length plan.now.rows }
    requires lists { All (λ k. k < list_count (row_at plan.now row).settings) lists.now }
    ensures { M.Measures measure.old (cost_of_answer_by plan.now (T.cost plan.now) row lists.now) measure.new result }
{
    let mut total = measure.lines(0);
    for list in lists {
        let cost = measure_list::<T, M>(measure, plan, plan.list_of_row(row, *list));
        total = measure.both(total, cost);
    }
    total
}

fn measure_list<T: TellCost, M: Measure>(measure: &mut M, plan: &Plan, list: ListId) -> M::Value
    requires { list.0 < length plan.now.lists }
    ensures { M.Measures measure.old (cost_of_list_by plan.now (T.cost plan.now) list) measure.new result }
{
    measure_actions::<T, M>(measure, plan, plan.list(list))
}

fn measure_actions<T: TellCost, M: Measure>(
    measure: &mut M,
    plan: &Plan,
    actions: &[Action],
) -> M::Value
    requires { All (IsActionWithin plan.now) actions.now }
    ensures { M.Measures measure.old (each_of (cost_of_action_by plan.now (T.cost plan.now)) actions.now) measure.new
        result }
{
    let mut total = measure.lines(0);
    for action in actions {
        let cost = measure_action::<T, M>(measure, plan, *action);
        total = measure.both(total, cost);
    }
    total
}

fn measure_action<T: TellCost, M: Measure>(measure: &mut M, plan: &Plan, action: Action) -> M::Value
    requires { IsActionWithin plan.now action }
    ensures { M.Measures measure.old (cost_of_action_by plan.now (T.cost plan.now) action) measure.new result }
{
    match action {
        Action::Post(event) => measure.weight(event),
        Action::Change { event, .. } => {
            let line = measure.lines(1);
            let post = measure.weight(event);
            measure.both(line, post)
        }
        Action::Enter {
            device,
            event,
            drain,
        } => measure_entry::<T, M>(measure, plan, device, event, drain),
        Action::Request { balls } | Action::AddBalls { balls } => {
            T::measure(measure, plan, Telling::Wanted(usize::from(balls)))
        }
        Action::Pulse { .. } | Action::Enable { .. } | Action::Disable { .. } => measure.lines(1),
        Action::Leave { .. } | Action::Lose { .. } | Action::Arrive { .. } => measure.lines(1),
    }
}

/// A ball enters a device: the line, the event, and the dearer of the drain and what the device answers
/// that ejected the ball.
fn measure_entry<T: TellCost, M: Measure>(
    measure: &mut M,
    plan: &Plan,
    device: RowId,
    event: EventId,
    drain: bool,
) -> M::Value
    requires device { device.0 < length plan.now.rows }
    requires game { drain ≡ true → HasGame plan.now }
    ensures { M.Measures measure.old (cost_of_action_by plan.now (T.cost plan.now) (Enter device event drain))
        measure.new result }
{
    let line = measure.lines(1);
    let post = measure.weight(event);
    let drain_cost = measure_drain(measure, plan, drain);
    let telling_cost = T::measure(measure, plan, Telling::Arrived(BallTarget::Device(device)));
    let dearer = measure.greater(drain_cost, telling_cost);
    let rest = measure.both(post, dearer);
    measure.both(line, rest)
}

/// The post of the event at which a ball drains, if it may.
fn measure_drain<M: Measure>(measure: &mut M, plan: &Plan, drain: bool) -> M::Value
    requires { drain ≡ true → HasGame plan.now }
    ensures { M.Measures measure.old (cost_of_drain plan.now drain) measure.new result }
{
    if drain {
        measure.weight(plan.game_event(GameEvent::BallDrain))
    } else {
        measure.lines(0)
    }
}

/// A ball device is told something.
pub(crate) fn measure_telling<M: Measure>(
    measure: &mut M,
    plan: &Plan,
    telling: Telling,
) -> M::Value
    requires { IsTellingWithin (length plan.now.rows) telling }
    ensures { M.Measures measure.old (cost_of_telling plan.now telling) measure.new result }
{
    match telling {
        Telling::Arrived(target) => measure_arrival(measure, plan, target),
        Telling::Wanted(balls) => measure_trough(measure, plan, balls),
    }
}

/// The dearest of what the devices answer that may be told of an arrival at a target.
fn measure_arrival<M: Measure>(measure: &mut M, plan: &Plan, target: BallTarget) -> M::Value
    requires { IsTargetThere (length plan.now.rows) target }
    ensures { M.Measures measure.old (cost_of_arrival plan.now target) measure.new result }
{
    let mut dearest = measure.lines(0);
    for row in plan.feeders(target) {
        let cost = measure_told(measure, plan, Telling::Arrived(target), *row);
        dearest = measure.greater(dearest, cost);
    }
    dearest
}

/// What the first trough answers, if there is one, when so many more balls are wanted.
fn measure_trough<M: Measure>(measure: &mut M, plan: &Plan, balls: usize) -> M::Value
    ensures { M.Measures measure.old (cost_of_trough plan.now balls (first_trough plan.now)) measure.new result }
{
    match plan.first_trough() {
        Some(row) => measure_told(measure, plan, Telling::Wanted(balls), row),
        None => measure.lines(0),
    }
}

/// The dearest of what a ball device can answer that is told this.
fn measure_told<M: Measure>(measure: &mut M, plan: &Plan, telling: Telling, row: RowId) -> M::Value
    requires { row.0 < length plan.now.rows }
    ensures { M.Measures measure.old (cost_of_told plan.now telling row) measure.new result }
{
    measure_call::<Untold, M>(measure, plan, row, Call::Act(telling.act()))
}

/// What the machine itself does at an event.
fn measure_work<M: Measure>(measure: &mut M, plan: &Plan, event: EventId) -> M::Value
    requires { event.0 < length plan.now.events }
    ensures { M.Measures measure.old (cost_of_work plan.now event) measure.new result }
{
    let starts = measure_starts(measure, plan, event);
    let stops = measure_stops(measure, plan, event);
    let releases = measure_releases(measure, plan, event);
    let lead_cost = measure_led(measure, plan, event);
    let game = measure_game(measure, plan, event);
    let last = measure.both(lead_cost, game);
    let release_cost = measure.both(releases, last);
    let rest = measure.both(stops, release_cost);
    measure.both(starts, rest)
}

/// The starts of a mode's devices, if the event is the mode's event `started`.
fn measure_starts<M: Measure>(measure: &mut M, plan: &Plan, event: EventId) -> M::Value
    requires { event.0 < length plan.now.events }
    ensures { M.Measures measure.old (cost_of_starts plan.now (work_of plan.now event)) measure.new result }
{
    match plan.work(event) {
        Work::Mode(mode, ModeEvent::Started) => {
            measure_devices(measure, plan, mode, Call::ModeStart)
        }
        _ => measure.lines(0),
    }
}

/// The stops of a mode's devices, if the event is the mode's event `stopping`.
fn measure_stops<M: Measure>(measure: &mut M, plan: &Plan, event: EventId) -> M::Value
    requires { event.0 < length plan.now.events }
    ensures { M.Measures measure.old (cost_of_stops plan.now (work_of plan.now event)) measure.new result }
{
    match plan.work(event) {
        Work::Mode(mode, ModeEvent::Stopping) => {
            measure_devices(measure, plan, mode, Call::ModeStop)
        }
        _ => measure.lines(0),
    }
}

/// A call of each device of a mode.
fn measure_devices<M: Measure>(measure: &mut M, plan: &Plan, mode: ModeId, call: Call) -> M::Value
    requires { mode.0 < length plan.now.modes }
    ensures { M.Measures measure.old (cost_of_devices plan.now call mode) measure.new result }
{
    let mut total = measure.lines(0);
    for row in plan.rows_of_mode(mode) {
        let cost = measure_call::<OneDevice, M>(measure, plan, *row, call);
        total = measure.both(total, cost);
    }
    total
}

/// A line for each coil that a mode may hold, if the event is the mode's event `stopping`.
fn measure_releases<M: Measure>(measure: &mut M, plan: &Plan, event: EventId) -> M::Value
    requires { event.0 < length plan.now.events }
    ensures { M.Measures measure.old (cost_of_releases plan.now (work_of plan.now event)) measure.new result }
{
    match plan.work(event) {
        Work::Mode(mode, ModeEvent::Stopping) => measure.lines(count_enabled(plan, mode) as u64),
        _ => measure.lines(0),
    }
}

/// The event with which a mode goes on, if the event is one of a mode's.
fn measure_led<M: Measure>(measure: &mut M, plan: &Plan, event: EventId) -> M::Value
    requires { event.0 < length plan.now.events }
    ensures { M.Measures measure.old (cost_if_led (led_by plan.now (work_of plan.now event))) measure.new result }
{
    match led_by(plan, event) {
        Some(lead_cost) => measure.weight(lead_cost),
        None => measure.lines(0),
    }
}

/// The scores that are told, the ball that is asked for, and the dearest way that it can go, if the
/// event is one of the game's.
fn measure_game<M: Measure>(measure: &mut M, plan: &Plan, event: EventId) -> M::Value
    requires { event.0 < length plan.now.events }
    ensures { M.Measures measure.old (cost_of_game plan.now (work_of plan.now event)) measure.new result }
{
    match plan.work(event) {
        Work::Game(which) => {
            let scores = measure_scores(measure, plan, which);
            let request = measure_request(measure, plan, which);
            let drain_cost = measure_drained_ball(measure, plan, which);
            let dearest_choice = measure_choices(measure, plan, which);
            let dearer = measure.greater(drain_cost, dearest_choice);
            let rest = measure.both(request, dearer);
            measure.both(scores, rest)
        }
        _ => measure.lines(0),
    }
}

/// A line for each player there can be, if all scores are told.
fn measure_scores<M: Measure>(measure: &mut M, plan: &Plan, which: GameEvent) -> M::Value
    requires { HasGame plan.now }
    ensures { M.Measures measure.old (cost_of_scores plan.now which) measure.new result }
{
    if tells_scores(which) {
        measure.lines(u64::from(plan.game().unwrap().max_players))
    } else {
        measure.lines(0)
    }
}

/// What the first trough answers, if there is one, when a ball is asked for.
fn measure_request<M: Measure>(measure: &mut M, plan: &Plan, which: GameEvent) -> M::Value
    ensures { M.Measures measure.old (cost_of_request plan.now which) measure.new result }
{
    if asks_for_ball(which) {
        measure_telling(measure, plan, Telling::Wanted(1))
    } else {
        measure.lines(0)
    }
}

/// When a ball has drained, the dearer of the dearest ball save that may save it, and all multiballs
/// that may end.
fn measure_drained_ball<M: Measure>(measure: &mut M, plan: &Plan, which: GameEvent) -> M::Value
    ensures { M.Measures measure.old (cost_of_drained_ball plan.now which) measure.new result }
{
    if is_drain(which) {
        let saves = measure_saves(measure, plan);
        let ends = measure_ends(measure, plan);
        measure.greater(saves, ends)
    } else {
        measure.lines(0)
    }
}

/// The dearest of what the ball saves answer that may save a ball.
fn measure_saves<M: Measure>(measure: &mut M, plan: &Plan) -> M::Value
    ensures { M.Measures measure.old (dearest_of (λ r. cost_of_call plan.now r (calls.Act Save)) (save_rows plan.now))
        measure.new result }
{
    let mut dearest = measure.lines(0);
    for number in 0..plan.rows().len() {
        let row = RowId(number as u16);
        if plan.row(row).settings.is_save() {
            let cost = measure_call::<OneDevice, M>(measure, plan, row, Call::Act(Act::Save));
            dearest = measure.greater(dearest, cost);
        }
    }
    dearest
}

/// What all multiballs answer that may end.
fn measure_ends<M: Measure>(measure: &mut M, plan: &Plan) -> M::Value
    ensures { M.Measures measure.old (each_of (λ r. cost_of_call plan.now r (calls.Act End)) (multiball_rows plan.now))
        measure.new result }
{
    let mut total = measure.lines(0);
    for number in 0..plan.rows().len() {
        let row = RowId(number as u16);
        if plan.row(row).settings.is_multiball() {
            let cost = measure_call::<OneDevice, M>(measure, plan, row, Call::Act(Act::End));
            total = measure.both(total, cost);
        }
    }
    total
}

/// The dearest way that an event of the game can go.
fn measure_choices<M: Measure>(measure: &mut M, plan: &Plan, which: GameEvent) -> M::Value
    requires { HasGame plan.now }
    ensures { M.Measures measure.old (dearest_of (cost_of_choice plan.now) (choices which)) measure.new result }
{
    let mut dearest = measure.lines(0);
    for choice in choices(which) {
        let cost = measure_choice(measure, plan, choice);
        dearest = measure.greater(dearest, cost);
    }
    dearest
}

/// What an event of the game posts by one of the ways that it can go.
fn measure_choice<M: Measure>(measure: &mut M, plan: &Plan, choice: &[GameEvent]) -> M::Value
    requires { HasGame plan.now }
    ensures { M.Measures measure.old (cost_of_choice plan.now choice.now) measure.new result }
{
    let mut total = measure.lines(0);
    for which in choice {
        let post = measure.weight(plan.game_event(*which));
        total = measure.both(total, post);
    }
    total
}
