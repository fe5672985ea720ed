//! What a stimulus does, and the event steps after it. Each function here requires that there is room for what it
//! leaves, so none takes memory.

ghost use Rattle.std.specs.Prelude.{◌≡◌, ◌^◌, ◌<◌, Some, length, option_map};
ghost use Rattle.plan_tables.specs.Valid.{HasGame, IsBindingWithin, IsListenerWithin, IsTargetWithin};
ghost use Rattle.plan_tables.specs.declared.entries.Work.TheVariants as works;
ghost use Rattle.plan_tables.specs.PlanView.{work_of};
ghost use Rattle.mode_stack.specs.Modes.{running_of};
ghost use Rattle.event_queue.specs.PlanOrder.{in_order};
ghost use Rattle.std.specs.List.{All};
ghost use Rattle.written_machine.specs.Machine.{all_do, post, post_if, release_ball_end, start_mode, stop_mode};
ghost use Rattle.written_machine.specs.Machine.{release_coils, tell_listener, do_target, do_binding, do_game};
ghost use Rattle.written_machine.specs.Machine.{do_handler, confirm_on_playfield, do_accepted, change_switch};
ghost use Rattle.written_machine.specs.EventStep.{is_kept, do_before, do_after};
ghost use Rattle.written_machine.specs.Run.{begin as begun, fire as fired};
ghost use Rattle.written_machine.specs.NextAlarm.{next_alarm};
ghost use Rattle.machine_core.specs.Core.{IsWhole, CanCall, HasHandlers, IsWorkOf, IsPlayable, IsWithin, StaysWithin};
ghost use Rattle.machine_core.specs.Core.{HasAdvanced, HasSettled, after, follow, after_taken};
ghost use Rattle.machine_core.specs.RareActions.{kept_at};
ghost use Rattle.machine_core.specs.Stimuli.{source_view, stimulus_view};

use crate::calls::{call_device, call_devices, run_actions};
use crate::core_state::Core;
use crate::drains::drain_ball;
use crate::game_steps::step_game;
use crate::stimulus::{Source, Stimulus};
use crate::tellings::tell;
use device_objects::{Call, Device};
use plan_tables::{
    BallTarget, Binding, EventId, GameEvent, Listener, ModeEvent, ModeId, Owner, Plan, SwitchId,
    Target, Telling, Work,
};
use player_game::is_drain;
use switch_core::Change;
use written_machine::Happening;

/// What a stimulus does before any event step. The core's machine has to be that of its plan, and its
/// moment becomes that of the stimulus, which has to be before 2^40 ms. A switch has to be one of the
/// plan, and an alarm the one that the core says is due next. It does not ask whether the moment is
/// before that of the latest stimulus, or past an alarm.
///
/// There has to be room for what it leaves: the events that wait and the lines. Those of the latest
/// stimulus are gone, and the lines are those of this one. It has to leave no booking out, and to
/// leave fewer than 2^32 balls known.
pub fn begin<D: Device>(core: &mut Core<'_, D>, stimulus: Stimulus)
    requires core { IsWhole core.old }
    requires playable { IsPlayable core.old (stimulus_view stimulus) }
    requires room { IsWithin core.old.room (begun core.old.plan (stimulus_view stimulus) core.old.machine) }
    ensures { core.new ≡ after (begun core.old.plan (stimulus_view stimulus)) core.old }
{
    core.arrive(stimulus.moment());
    match stimulus {
        Stimulus::SwitchChange(at, switch, level) => change(core, at, switch, level),
        Stimulus::Alarm(_, source) => fire(core, source),
        Stimulus::Wait(_) => {}
    }
}

/// A switch of the plan has a new raw level, which may be accepted at once.
fn change<D: Device>(core: &mut Core<'_, D>, at: u64, switch: SwitchId, level: bool)
    requires at { at < 2 ^ 40 }
    requires moment { core.old.machine.moment < 2 ^ 40 }
    requires switch { switch.0 < length core.old.plan.switches }
    requires core { IsWhole core.old }
    requires room { IsWithin core.old.room (change_switch core.old.plan at switch level core.old.machine) }
    ensures { core.new ≡ after (change_switch core.old.plan at switch level) core.old }
{
    if let Some(change) = core.change(at, switch, level) {
        run_accepted(core, change);
    }
}

/// The next alarm comes.
fn fire<D: Device>(core: &mut Core<'_, D>, source: Source)
    requires core { IsWhole core.old }
    requires moment { core.old.machine.moment < 2 ^ 40 }
    requires next { option_map (λ a. a.1) (next_alarm core.old.machine) ≡ Some (source_view source) }
    requires room { IsWithin core.old.room (fired core.old.plan (source_view source) core.old.machine) }
    ensures { core.new ≡ after (fired core.old.plan (source_view source)) core.old }
{
    match source {
        Source::Switch(_) => {
            let change = core.fire();
            run_accepted(core, change);
        }
        Source::Device(row) => call_device(core, row, Call::Fire),
    }
}

/// A switch was accepted as active or inactive: its line is written, the devices that listen to it
/// are told, a ball may have arrived on the playfield, and then its events are posted.
fn run_accepted<D: Device>(core: &mut Core<'_, D>, change: Change)
    requires switch { change.switch.0 < length core.old.plan.switches }
    requires calls { CanCall core.old }
    requires room { IsWithin core.old.room (do_accepted core.old.plan change core.old.machine) }
    ensures { core.new ≡ after (do_accepted core.old.plan change) core.old }
{
    let Change { switch, active } = change;
    let plan = core.plan();
    core.write(Owner::Machine, Happening::Switch(switch, active));
    tell_listeners(core, active, plan.listeners(switch));
    confirm_on_playfield(core, change);
    post_each(core, Owner::Machine, plan.posts(switch, active));
}

/// Devices are told that the switch to which they listen is active, or inactive.
fn tell_listeners<D: Device>(core: &mut Core<'_, D>, active: bool, listeners: &[Listener])
    requires listeners { All (IsListenerWithin (length core.old.plan.rows)) listeners.now }
    requires calls { CanCall core.old }
    requires room { IsWithin core.old.room
        (all_do (tell_listener core.old.plan active) listeners.now core.old.machine) }
    ensures { core.new ≡ after (all_do (tell_listener core.old.plan active) listeners.now) core.old }
{
    for listener in listeners {
        call_device(core, listener.row, Call::Act(listener.act(active)));
    }
}

/// A ball that presses the switch may have arrived on the playfield.
fn confirm_on_playfield<D: Device>(core: &mut Core<'_, D>, change: Change)
    requires switch { change.switch.0 < length core.old.plan.switches }
    requires calls { CanCall core.old }
    requires room { IsWithin core.old.room (confirm_on_playfield core.old.plan change core.old.machine) }
    ensures { core.new ≡ after (confirm_on_playfield core.old.plan change) core.old }
{
    if change.active && core.plan().confirms_playfield(change.switch) {
        tell(core, Telling::Arrived(BallTarget::Playfield));
    }
}

fn post_each<D: Device>(core: &mut Core<'_, D>, owner: Owner, events: &[EventId])
    requires { IsWithin core.old.room (all_do (post owner) events.now core.old.machine) }
    ensures { core.new ≡ after (all_do (post owner) events.now) core.old }
{
    for event in events {
        core.post(owner, *event);
    }
}

/// Takes event steps, in plan order, as long as an event waits. The core has the handlers of the
/// modes that run, and its devices can be called. There has to be room for what each number of steps
/// leaves, and each has to leave no booking out, and fewer than 2^32 balls known.
///
/// No event waits then. The core again has the handlers of the modes that run, and its devices can
/// be called.
#[inline(never)]
pub fn settle<D: Device>(core: &mut Core<'_, D>)
    requires handlers { HasHandlers core.old }
    requires calls { CanCall core.old }
    requires room { StaysWithin core.old }
    ensures settles { HasSettled core.old core.new }
    ensures calls { CanCall core.new }
{
    while advance(core) {}
}

/// Takes one event step, in plan order, and says so; or says that no event waits, and does nothing.
/// The rest is as of `settle`: there has to be room for this step and all that follow.
#[inline(always)]
pub fn advance<D: Device>(core: &mut Core<'_, D>) -> bool
    requires handlers { HasHandlers core.old }
    requires calls { CanCall core.old }
    requires room { StaysWithin core.old }
    ensures advances { HasAdvanced core.old result core.new }
    ensures calls { CanCall core.new }
{
    match core.take() {
        Some(first) => {
            core.write(first.owner, Happening::Event(first.event));
            take_step(core, first.event);
            true
        }
        None => false,
    }
}

/// What is done at an event that was taken: nothing if it is idle, as many are.
// Inlined, so that an idle event takes no call.
#[inline(always)]
fn take_step<D: Device>(core: &mut Core<'_, D>, event: EventId)
    requires handlers { HasHandlers core.old }
    requires calls { CanCall core.old }
    requires room { IsWithin core.old.room (after_taken core.old.plan event core.old.machine) }
    ensures { core.new ≡ follow (after_taken core.old.plan event) core.old }
{
    if core.is_idle(event) {
        return;
    }
    run_step(core, event);
}

/// What is done at an event, whether it is idle or not: the machine's work before its handlers, its
/// handlers, and the work after them. At most events the machine has none: then little is kept while
/// the handlers run.
#[inline(never)]
fn run_step<D: Device>(core: &mut Core<'_, D>, event: EventId)
    requires handlers { HasHandlers core.old }
    requires calls { CanCall core.old }
    requires room { IsWithin core.old.room (after_taken core.old.plan event core.old.machine) }
    ensures { core.new ≡ follow (after_taken core.old.plan event) core.old }
{
    let keeps_stop = work_before(core, event);
    handle(core, event);
    if let Some(keeps_stop) = keeps_stop {
        work_after(core, keeps_stop, event);
    }
}

/// The machine's work at an event: none if the plan has no such event.
fn work_of(plan: &Plan, event: EventId) -> Work
    ensures work { result ≡ work_of plan.now event }
    ensures of_plan { IsWorkOf plan.now result }
{
    if event.0 as usize >= plan.event_count() {
        return Work::Nothing;
    }
    plan.work(event)
}

/// The machine's work before the handlers of an event. If it has work at the event, reports
/// whether a stop was kept for the mode that is active from now on.
fn work_before<D: Device>(core: &mut Core<'_, D>, event: EventId) -> Option<bool>
    requires handlers { HasHandlers core.old }
    requires calls { CanCall core.old }
    requires room { IsWithin core.old.room (do_before core.old.plan (work_of core.old.plan event) core.old.machine) }
    ensures state { core.new ≡ follow (do_before core.old.plan (work_of core.old.plan event)) core.old }
    ensures keeps { result ≡ kept_at (work_of core.old.plan event) core.old.machine }
{
    match work_of(core.plan(), event) {
        Work::Nothing => None,
        Work::Mode(mode, which) => Some(mode_before(core, mode, which)),
        Work::Game(_) => Some(false),
    }
}

/// The machine's work before the handlers of an event of a mode. Reports whether a stop was kept for
/// the mode that is active from now on.
fn mode_before<D: Device>(core: &mut Core<'_, D>, mode: ModeId, which: ModeEvent) -> bool
    requires mode { mode.0 < length core.old.plan.modes }
    requires handlers { HasHandlers core.old }
    requires calls { CanCall core.old }
    requires room { IsWithin core.old.room (do_before core.old.plan (works.Mode mode which) core.old.machine) }
    ensures state { core.new ≡ follow (do_before core.old.plan (works.Mode mode which)) core.old }
    ensures keeps { result ≡ is_kept (works.Mode mode which) core.old.machine }
{
    match which {
        ModeEvent::Started => {
            let keeps_stop = core.enter(mode);
            call_devices(core, mode, Call::ModeStart);
            keeps_stop
        }
        _ => false,
    }
}

/// The machine's work after them.
fn work_after<D: Device>(core: &mut Core<'_, D>, keeps_stop: bool, event: EventId)
    requires handlers { HasHandlers core.old }
    requires calls { CanCall core.old }
    requires room { IsWithin core.old.room
        (do_after core.old.plan keeps_stop (work_of core.old.plan event) core.old.machine) }
    ensures { core.new ≡ follow (do_after core.old.plan keeps_stop (work_of core.old.plan event)) core.old }
{
    match work_of(core.plan(), event) {
        Work::Nothing => {}
        Work::Mode(mode, which) => mode_after(core, keeps_stop, mode, which),
        Work::Game(which) => play(core, which),
    }
}

/// The next step in the life of a mode, after the handlers of its event.
fn mode_after<D: Device>(core: &mut Core<'_, D>, keeps_stop: bool, mode: ModeId, which: ModeEvent)
    requires mode { mode.0 < length core.old.plan.modes }
    requires handlers { HasHandlers core.old }
    requires calls { CanCall core.old }
    requires room { IsWithin core.old.room (do_after core.old.plan keeps_stop (works.Mode mode which)
        core.old.machine) }
    ensures { core.new ≡ follow (do_after core.old.plan keeps_stop (works.Mode mode which)) core.old }
{
    let events = core.plan().mode(mode).events;
    match which {
        ModeEvent::WillStart => core.post(Owner::Machine, events.starting),
        ModeEvent::Starting => core.post(Owner::Machine, events.started),
        ModeEvent::Started => {
            if keeps_stop {
                stop(core, mode);
            }
        }
        ModeEvent::Stopping => {
            call_devices(core, mode, Call::ModeStop);
            release_coils(core, Owner::Mode(mode));
            core.end(mode);
            core.post(Owner::Machine, events.stopped);
        }
        ModeEvent::Stopped => release_ball_end(core, mode),
    }
}

/// What the machine itself does at an event of the game. A ball that drains may be saved.
fn play<D: Device>(core: &mut Core<'_, D>, event: GameEvent)
    requires game { HasGame core.old.plan }
    requires calls { CanCall core.old }
    requires room { IsWithin core.old.room (do_game core.old.plan event core.old.machine) }
    ensures { core.new ≡ after (do_game core.old.plan event) core.old }
{
    if is_drain(event) {
        drain_ball(core);
    } else {
        step_game(core, event);
    }
}

/// Runs the handlers of an event, in plan order. The condition of each is judged when its turn
/// comes.
fn handle<D: Device>(core: &mut Core<'_, D>, event: EventId)
    requires handlers { HasHandlers core.old }
    requires calls { CanCall core.old }
    requires room { IsWithin core.old.room
        (all_do (do_handler core.old.plan) (in_order core.old.plan (running_of core.old.machine.modes) event)
        core.old.machine) }
    ensures { core.new ≡ after (all_do (do_handler core.old.plan)
        (in_order core.old.plan (running_of core.old.machine.modes) event)) core.old }
{
    let plan = core.plan();
    let mut k = 0;
    while let Some(place) = core.handler(event, k) {
        run_binding(core, plan.binding(place));
        k += 1;
    }
}

/// A binding does nothing if its condition is not met.
fn run_binding<D: Device>(core: &mut Core<'_, D>, binding: Binding)
    requires binding { IsBindingWithin core.old.plan binding }
    requires calls { CanCall core.old }
    requires room { IsWithin core.old.room (do_binding core.old.plan binding core.old.machine) }
    ensures { core.new ≡ after (do_binding core.old.plan binding) core.old }
{
    if core.meets(binding.condition) {
        run_target(core, binding.owner, binding.target);
    }
}

fn run_target<D: Device>(core: &mut Core<'_, D>, owner: Owner, target: Target)
    requires target { IsTargetWithin core.old.plan target }
    requires calls { CanCall core.old }
    requires room { IsWithin core.old.room (do_target core.old.plan owner target core.old.machine) }
    ensures { core.new ≡ after (do_target core.old.plan owner target) core.old }
{
    match target {
        Target::Run(list) => {
            let actions = core.plan().list(list);
            run_actions(core, owner, actions);
        }
        Target::Start(mode) => start(core, mode),
        Target::Stop(mode) => stop(core, mode),
        Target::Act(row, act) => call_device(core, row, Call::Act(act)),
    }
}

/// A mode is told to start.
fn start<D: Device>(core: &mut Core<'_, D>, mode: ModeId)
    requires mode { mode.0 < length core.old.plan.modes }
    requires room { IsWithin core.old.room (start_mode core.old.plan mode core.old.machine) }
    ensures { core.new ≡ after (start_mode core.old.plan mode) core.old }
{
    let plan = core.plan();
    let starts = core.start(mode);
    if starts && plan.may_hold_ball_end(mode) {
        core.hold(mode);
    }
    post_if(core, starts, plan.mode(mode).events.will_start);
}

/// A mode has stopped, and lets go of the end of the ball, which then may end.
fn release_ball_end<D: Device>(core: &mut Core<'_, D>, mode: ModeId)
    requires mode { mode.0 < length core.old.plan.modes }
    requires room { IsWithin core.old.room (release_ball_end core.old.plan mode core.old.machine) }
    ensures { core.new ≡ after (release_ball_end core.old.plan mode) core.old }
{
    let plan = core.plan();
    if !plan.may_hold_ball_end(mode) {
        return;
    }
    let ends = core.drop_hold(mode);
    post_if(core, ends, plan.game_event(GameEvent::BallEnded));
}

/// A mode is told to stop.
fn stop<D: Device>(core: &mut Core<'_, D>, mode: ModeId)
    requires mode { mode.0 < length core.old.plan.modes }
    requires room { IsWithin core.old.room (stop_mode core.old.plan mode core.old.machine) }
    ensures { core.new ≡ after (stop_mode core.old.plan mode) core.old }
{
    let events = core.plan().mode(mode).events;
    let posts = core.stop(mode);
    post_if(core, posts, events.stopping);
}

/// The machine posts the event, if `posts` holds.
fn post_if<D: Device>(core: &mut Core<'_, D>, posts: bool, event: EventId)
    requires { IsWithin core.old.room (post_if posts event core.old.machine) }
    ensures { core.new ≡ after (post_if posts event) core.old }
{
    if posts {
        core.post(Owner::Machine, event);
    }
}

/// The coils that an owner holds are turned off, in the order of their numbers.
fn release_coils<D: Device>(core: &mut Core<'_, D>, owner: Owner)
    requires coils { length core.old.machine.coils ≡ length core.old.plan.coils }
    requires room { IsWithin core.old.room (release_coils core.old.plan owner core.old.machine) }
    ensures { core.new ≡ after (release_coils core.old.plan owner) core.old }
{
    while let Some(command) = core.release(owner) {
        core.write(owner, Happening::Coil(command));
    }
}
