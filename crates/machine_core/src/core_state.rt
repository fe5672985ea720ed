//! The state of a machine, with room for the events that wait and the lines.

ghost use Rattle.std.specs.Prelude.{◌≡◌, ◌^◌, ◌<◌, ◌≤◌, ℕ, [], None, Some, true, false, IfOk, IfSome, IsSome, is_some};
ghost use Rattle.std.specs.Prelude.{IsTrue, length, map, option_map, replicate, slice_get, slice_set, vec_capacity};
ghost use Rattle.event_queue.specs.Handlers.{none_running};
ghost use Rattle.event_queue.specs.Queue.{empty};
ghost use Rattle.event_queue.specs.Alarms.{least_of};
ghost use Rattle.event_queue.specs.PlanOrder.{in_order};
ghost use Rattle.mode_stack.specs.ModeStep.{starts, after_start, after_stop, stop_answer, entered, ended};
ghost use Rattle.mode_stack.specs.Modes.{idle_modes, needs_game, mode_state};
ghost use Rattle.switch_core.specs.Switches.{IsComplete, all_idle, after_change, reported_by_change, next_due};
ghost use Rattle.switch_core.specs.Switches.{after_fire, reported_by_fire};
ghost use Rattle.coil_guard.specs.Asked.{limits_of};
ghost use Rattle.coil_guard.specs.Coils.{all_off, after_release, answer_release};
ghost use Rattle.coil_guard.specs.SentCommands.{coil_of};
ghost use Rattle.device_objects.specs.Laws.{MayCome};
ghost use Rattle.written_machine.specs.Machine.{initial, write, post, set_switches, set_mode, set_device, set_coils};
ghost use Rattle.written_machine.specs.Machine.{set_game, ask_coil, book, device_at, call_row};
ghost use Rattle.written_machine.specs.Machine.{change_variable, has_game};
ghost use Rattle.written_machine.specs.Machine.{drop_hold, is_post, world_of, write_final};
ghost use Rattle.written_machine.specs.Run.{arrive};
ghost use Rattle.device_objects.specs.DeviceStep.{device_step, due_of};
ghost use Rattle.plan_tables.specs.PlanView.{row_at};
ghost use Rattle.plan_tables.specs.Valid.{IsConditionWithin};
ghost use Rattle.player_game.specs.GameStep.{ends_ball, hold, in_play, is_ball_on, missing, more_balls};
ghost use Rattle.player_game.specs.Players.{is_met, no_players};
ghost use Rattle.ball_devices.specs.Bookings.{is_awaited};
ghost use Rattle.ball_devices.specs.Ledger.{no_balls, origin_of};
ghost use Rattle.machine_core.specs.Balls.{IsThere, ledger_call};
ghost use Rattle.machine_core.specs.Core.{play_event, IsWorkOfGame};
ghost use Rattle.written_machine.specs.NextAlarm.{next_alarm, is_due_by, first_of};
ghost use Rattle.written_machine.specs.Run.{switch as of_switch, device as of_device};
ghost use Rattle.machine_core.specs.Core.{IsWithin, IsWhole, TakesFirst, after};
ghost use Rattle.machine_core.specs.Idle.{AreIdle, IsIdle};
ghost use Rattle.machine_core.specs.Stimuli.{alarm_view};
ghost use Rattle.machine_core.specs.Stopping.{stopped_state};

use crate::balls::{BallCall, book, counts_of, home};
use crate::exchange::put_in_place;
use crate::fault::CoreFault;
use crate::fit::first_wrong;
use crate::idle::idle_events;
use crate::stimulus::Source;
use ball_devices::BallLedger;
use coil_guard::{Answer, Coils, Command};
use device_objects::{Call, Device, DeviceState, Outcome, World};
use event_queue::{Alarms, Handlers, Posted, Queue};
use machine_settings::VariableAction;
use mode_stack::{Modes, StopAnswer};
use plan_tables::{
    BallTarget, BindingId, Condition, EventId, GameEvent, ModeId, Owner, Plan, RowId, SwitchId,
    VariableId,
};
use player_game::{Game, GamePhase, GameWork, Players};
use std::alloc::{AllocError, Global};
use std::marker::Model;
use switch_core::{Change, Switches};
use written_machine::{Happening, Line};

/// The machine of a plan, with the plan and the devices: the moment of the latest stimulus, the
/// switches, the modes, the devices and their alarms, the coils, the ledger of balls, the players
/// and the game, the events that wait and what handles them, and the lines of the latest stimulus.
/// Moments are milliseconds.
///
/// `begin` does what a stimulus does. `advance` takes the next event step after it, and `settle` all that are left.
/// Only `new` takes memory. `stop_devices` stops the devices and gives them back; when a core is dropped, they are
/// dropped as they are.
#[derive(Drop)]
pub struct Core<'p, D: Device> {
    plan: &'p Plan,
    moment: u64,
    switches: Switches,
    modes: Modes<'p>,
    /// At each row's number the device of the row.
    devices: Vec<D>,
    alarms: Alarms,
    coils: Coils,
    ledger: BallLedger,
    players: Players<'p>,
    game: Game,
    queue: Queue,
    handlers: Handlers<'p>,
    lines: Vec<Line>,
    /// For each event of the plan whether it is idle.
    idle: Vec<bool>,
}

impl<'p, D: Device> Model for Core<'p, D> {
    ghost use Rattle.std.specs.Prelude.{map, vec_capacity};
    ghost use Rattle.machine_core.specs.Core.{CoreView};
    ghost use Rattle.machine_core.specs.Held.{FitTogether};

    ghost Value = { CoreView };

    ghost view = { λ c. record {
      plan = c.plan.now;
      running = c.handlers.running;
      machine =
          record {
            moment = c.moment;
            switches = c.switches;
            modes = c.modes.modes;
            devices = map D.state_of c.devices.items;
            coils = c.coils;
            ledger = c.ledger;
            players =
                c.players.state;
            game = c.game.state;
            waiting = c.queue.waiting;
            lines = c.lines.items;
            bookings_left_out =
                0;
          };
      room = c.queue.size;
    } };

    ghost invariant = { λ c.
        FitTogether c.plan.now c.modes c.handlers c.players c.game c.ledger (map D.row_of c.devices.items)
        (map D.state_of c.devices.items)
        c.alarms c.queue (vec_capacity c.lines) c.idle.items };
}

/// The switches, the modes, the coils, the ledger and the players of a plan, at first.
#[derive(Drop)]
struct FirstParts<'p> {
    switches: Switches,
    modes: Modes<'p>,
    coils: Coils,
    ledger: BallLedger,
    players: Players<'p>,
}

/// All switches are inactive, all modes idle and all coils off, no ball is known, and there is no
/// player.
fn first_parts<'p>(alloc: Global, plan: &'p Plan) -> Result<FirstParts<'p>, AllocError>
    ensures switches { IfOk result (λ p. p.switches ≡ all_idle plan.now) }
    ensures kinds { IfOk result (λ p. length p.switches.kinds ≡ length plan.now.switches) }
    ensures complete { IfOk result (λ p. IsComplete p.switches) }
    ensures modes { IfOk result (λ p. p.modes ≡ idle_modes plan.now) }
    ensures coils { IfOk result (λ p. p.coils ≡ all_off (limits_of plan.now)) }
    ensures count { IfOk result (λ p. length p.coils ≡ length plan.now.coils) }
    ensures ledger { IfOk result (λ p. p.ledger ≡ no_balls plan.now) }
    ensures players { IfOk result (λ p. p.players ≡ record { plan = plan.now; state = no_players }) }
{
    Ok(FirstParts {
        modes: Modes::new(alloc, plan)?,
        coils: Coils::new(alloc, plan)?,
        ledger: BallLedger::new(alloc, plan)?,
        players: Players::new(alloc, plan)?,
        switches: Switches::new(alloc, plan)?,
    })
}

/// The alarms, and what waits and who handles it, with room for what comes.
#[derive(Drop)]
struct WaitingParts<'p> {
    alarms: Alarms,
    queue: Queue,
    handlers: Handlers<'p>,
    lines: Vec<Line>,
    idle: Vec<bool>,
}

/// Nothing is due and no event waits, and the machine alone handles events. There is room for so
/// many events that wait, and so many lines. The idle events are marked.
fn waiting_parts<'p>(
    alloc: Global,
    plan: &'p Plan,
    room: usize,
) -> Result<WaitingParts<'p>, AllocError>
    ensures alarms { IfOk result (λ w. w.alarms ≡ replicate (length plan.now.rows) None) }
    ensures queue { IfOk result (λ w. w.queue ≡ empty room) }
    ensures handlers { IfOk result (λ w. w.handlers ≡ record { plan = plan.now; running = none_running plan.now }) }
    ensures lines { IfOk result (λ w. w.lines.items ≡ []) }
    ensures room { IfOk result (λ w. room ≤ vec_capacity w.lines) }
    ensures idle { IfOk result (λ w. AreIdle plan.now w.idle.items) }
{
    let lines = room_for_lines(alloc, room)?;
    let queue = Queue::new(alloc, room)?;
    let alarms = Alarms::new(alloc, plan.rows().len() as u16)?;
    let handlers = Handlers::new(alloc, plan)?;
    let idle = idle_events(alloc, plan)?;
    Ok(WaitingParts {
        alarms,
        queue,
        handlers,
        lines,
        idle,
    })
}

/// No lines, with room for so many. The room is written once, so that no line waits for a page of
/// memory later.
fn room_for_lines(alloc: Global, room: usize) -> Result<Vec<Line>, AllocError>
    ensures lines { IfOk result (λ lines. lines.items ≡ []) }
    ensures room { IfOk result (λ lines. room ≤ vec_capacity lines) }
{
    let any = Line {
        moment: 0,
        owner: Owner::Machine,
        happening: Happening::Event(EventId(0)),
    };
    let mut lines = vec![in alloc; any; room]?;
    lines.clear();
    Ok(lines)
}

impl<'p, D: Device> Core<'p, D> {
    ghost use Rattle.std.specs.Prelude.{map};
    ghost use Rattle.machine_core.specs.Fit.{IsFit, IsFirstWrong};
    ghost use Rattle.machine_core.specs.Stopping.{AreStopped};

    /// The plan's machine at moment 0, with all switches inactive, all modes idle, all coils off, no
    /// ball known, no game and no event waiting. It has a device for each row of the plan, in the
    /// order of the rows, and room for so many events that wait, and for so many lines of one
    /// stimulus. Only this call takes memory.
    ///
    /// # Errors
    ///
    /// The first of these that applies. The devices are dropped then.
    ///
    /// - `NoMemory`: memory ran out.
    /// - `WrongDevice`: a device is not the one of its row, in its first state; or there are too
    ///   few devices, or too many.
    pub fn new(
        alloc: Global,
        plan: &'p Plan,
        room: usize,
        devices: Vec<D>,
    ) -> Result<Core<'p, D>, CoreFault>
        ensures machine { IfOk result (λ c. c.machine ≡ initial plan.now) }
        ensures plan { IfOk result (λ c. c.plan ≡ plan.now) }
        ensures whole { IfOk result (λ c. IsWhole c) }
        ensures room { IfOk result (λ c. c.room ≡ room) }
        ensures fit { IfOk result (λ c. IsFit plan.now (map D.row_of devices.items) (map D.state_of devices.items)) }
        ensures wrong { (row : ℕ) → result ≡ Err (CoreFault.WrongDevice (record { 0 = row }))
            → IsFirstWrong plan.now (map D.row_of devices.items) (map D.state_of devices.items) row }
    {
        let first = first_parts(alloc, plan)?;
        let waiting = waiting_parts(alloc, plan, room)?;
        if let Some(row) = first_wrong(plan, &devices) {
            return Err(CoreFault::WrongDevice(row));
        }
        Ok(Core {
            plan,
            moment: 0,
            switches: first.switches,
            modes: first.modes,
            devices,
            alarms: waiting.alarms,
            coils: first.coils,
            ledger: first.ledger,
            players: first.players,
            game: Game::new(plan),
            queue: waiting.queue,
            handlers: waiting.handlers,
            lines: waiting.lines,
            idle: waiting.idle,
        })
    }

    /// The plan.
    pub(crate) fn plan(&self) -> &'p Plan
        ensures { result.now ≡ self.now.plan }
    {
        self.plan
    }

    /// The moment of the latest stimulus, in milliseconds: 0 before the first one.
    pub fn moment(&self) -> u64
        ensures { result ≡ self.now.machine.moment }
    {
        self.moment
    }

    /// The lines of the latest stimulus, in the order in which they came.
    pub fn lines(&self) -> &[Line]
        ensures { result.now ≡ self.now.machine.lines }
    {
        self.lines.as_slice()
    }

    /// The alarm that comes next, if one is due at all: its moment, in milliseconds, and what it
    /// comes from. Of alarms at one moment it is that of a switch first, and of switches or of
    /// devices that of the lowest number.
    pub fn due(&self) -> Option<(u64, Source)>
        ensures { option_map alarm_view result ≡ next_alarm self.now.machine }
    {
        first_of(self.switches.due(), self.device_due())
    }

    /// The alarm of a device that comes next, if a device is due at all.
    pub(crate) fn device_due(&self) -> Option<(u64, RowId)>
        ensures { result ≡ least_of (map due_of self.now.machine.devices) }
    {
        self.alarms.least()
    }

    /// Whether an alarm is due at or before this moment, in milliseconds.
    pub fn is_due_by(&self, at: u64) -> bool
        ensures { result ≡ is_due_by at self.now.machine }
    {
        let Some((due, _)) = self.due() else {
            return false;
        };
        due <= at
    }

    /// A stimulus comes: it is a new moment, with no line yet.
    pub(crate) fn arrive(&mut self, at: u64)
        ensures { self.new ≡ after (arrive at) self.old }
    {
        self.moment = at;
        self.lines.clear();
    }

    /// A line is written.
    // Inlined: it is done for each line of a trace, and a call would take longer than the work.
    #[inline(always)]
    pub(crate) fn write(&mut self, owner: Owner, happening: Happening)
        requires { length self.old.machine.lines < self.old.room }
        ensures { self.new ≡ after (write owner happening) self.old }
    {
        let moment = self.moment;
        self.lines.push_reserved(Line {
            moment,
            owner,
            happening,
        });
    }

    /// An event is posted.
    // Inlined like `write`: it is done for each event that is posted.
    #[inline(always)]
    pub(crate) fn post(&mut self, owner: Owner, event: EventId)
        requires { length self.old.machine.waiting < self.old.room }
        ensures { self.new ≡ after (post owner event) self.old }
    {
        match self.queue.push(Posted { event, owner }) {
            Ok(()) => {}
            Err(_) => unreachable!(),
        }
    }

    /// Takes the event that waits first.
    pub(crate) fn take(&mut self) -> Option<Posted>
        ensures { TakesFirst result self.old self.new }
    {
        self.queue.take()
    }

    /// Whether it is known that nothing is done at an event, whatever modes run.
    pub(crate) fn is_idle(&self, event: EventId) -> bool
        ensures { IsTrue result → IsIdle self.now.plan event }
    {
        self.idle.get(event.0 as usize).copied().unwrap_or(false)
    }

    /// The place of the `k`-th handler of an event, counted from 0, in plan order. None if the
    /// event has fewer.
    pub(crate) fn handler(&self, event: EventId, k: usize) -> Option<BindingId>
        ensures handler { result ≡ slice_get (in_order self.now.plan self.now.running event) k }
        ensures within { IfSome result (λ place. place.0 < length self.now.plan.bindings) }
    {
        self.handlers.nth(event, k)
    }

    /// A mode is told to start. Reports whether it starts.
    pub(crate) fn start(&mut self, mode: ModeId) -> bool
        requires { mode.0 < length self.old.plan.modes }
        ensures state { self.new ≡ after
            (set_mode mode (after_start (needs_game self.old.plan mode) (has_game self.old.machine)
            (mode_state self.old.machine.modes mode))) self.old }
        ensures starts { result ≡ starts (needs_game self.old.plan mode) (has_game self.old.machine)
            (mode_state self.old.machine.modes mode).phase }
    {
        let game = self.has_game();
        self.modes.start(mode, game)
    }

    /// A mode holds the end of the ball from now on.
    pub(crate) fn hold(&mut self, mode: ModeId)
        requires { mode.0 < 64 }
        ensures { self.new ≡ after (λ s. set_game (hold mode s.game) s) self.old }
    {
        self.game.hold(mode);
    }

    /// A mode no longer holds the end of the ball. Reports whether it was the last one that did.
    pub(crate) fn drop_hold(&mut self, mode: ModeId) -> bool
        requires { mode.0 < 64 }
        ensures state { self.new ≡ after (drop_hold mode) self.old }
        ensures ends { result ≡ ends_ball mode self.old.machine.game }
    {
        self.game.release(mode)
    }

    /// Whether a ball of the game is on.
    pub(crate) fn is_ball_on(&self) -> bool
        ensures { result ≡ is_ball_on self.now.machine.game.phase }
    {
        match self.game.phase() {
            GamePhase::Ball => true,
            GamePhase::None | GamePhase::Between => false,
        }
    }

    /// How many balls are in play: none unless a ball is on.
    pub(crate) fn in_play(&self) -> u32
        ensures { result ≡ in_play self.now.machine.game }
    {
        self.game.in_play()
    }

    /// At least so many balls are in play from now on, while a ball is on. Reports how many were
    /// missing for that.
    pub(crate) fn add_balls(&mut self, balls: u8) -> usize
        ensures state { self.new ≡ after (λ s. set_game (more_balls balls s.game) s) self.old }
        ensures missing { result ≡ missing balls self.old.machine.game }
    {
        usize::from(self.game.add_balls(balls))
    }

    /// Whether a game goes on.
    fn has_game(&self) -> bool
        ensures { result ≡ has_game self.now.machine }
    {
        match self.game.phase() {
            GamePhase::None => false,
            GamePhase::Between | GamePhase::Ball => true,
        }
    }

    /// A mode is told to stop. Reports whether its event for that is to be posted.
    pub(crate) fn stop(&mut self, mode: ModeId) -> bool
        requires { mode.0 < length self.old.plan.modes }
        ensures state { self.new ≡ after (set_mode mode (after_stop (mode_state self.old.machine.modes mode)))
            self.old }
        ensures posts { result ≡ is_post (stop_answer (mode_state self.old.machine.modes mode).phase) }
    {
        match self.modes.stop(mode) {
            StopAnswer::Post => true,
            StopAnswer::Kept | StopAnswer::Ignored => false,
        }
    }

    /// A mode is active, and its bindings are handlers. Reports whether a stop was kept for it.
    pub(crate) fn enter(&mut self, mode: ModeId) -> bool
        requires { mode.0 < length self.old.plan.modes }
        ensures state { self.new ≡ record self.old {
          machine = set_mode mode (entered (mode_state self.old.machine.modes mode)) self.old.machine;
          running = slice_set self.old.running mode.0 true;
        } }
        ensures keeps { result ≡ (mode_state self.old.machine.modes mode).keeps_stop }
    {
        self.handlers.add_owner(mode);
        self.modes.entered(mode)
    }

    /// A mode is idle, and its bindings are no handlers.
    pub(crate) fn end(&mut self, mode: ModeId)
        requires { mode.0 < length self.old.plan.modes }
        ensures { self.new ≡ record self.old {
          machine = set_mode mode (ended (mode_state self.old.machine.modes mode)) self.old.machine;
          running = slice_set self.old.running mode.0 false;
        } }
    {
        self.handlers.drop_owner(mode);
        self.modes.ended(mode);
    }

    /// The state of the device of a row, which has to be one of the plan.
    pub fn state(&self, row: RowId) -> DeviceState
        requires { row.0 < length self.now.machine.devices }
        ensures { result ≡ device_at self.now.machine row }
    {
        self.devices[row.0 as usize].state()
    }

    /// Whether the device of a row, which has to be one of the plan, is due at some moment.
    pub(crate) fn is_due(&self, row: RowId) -> bool
        requires { row.0 < length self.now.machine.devices }
        ensures { result ≡ is_some (due_of (device_at self.now.machine row)) }
    {
        self.alarms.due(row).is_some()
    }

    /// A device that there is is called, and goes on to its next state. Reports the effect lists
    /// that it answers.
    // Inlined like `write`: it is done for each call of a device.
    #[inline(always)]
    pub(crate) fn call(&mut self, row: RowId, call: Call) -> Outcome
        requires row { row.0 < length self.old.machine.devices }
        requires moment { self.old.machine.moment < 2 ^ 40 }
        requires may { MayCome call (device_at self.old.machine row) }
        ensures state { self.new ≡ after (set_device row (call_row self.old.plan call row self.old.machine).0)
            self.old }
        ensures lists { result.items ≡ (call_row self.old.plan call row self.old.machine).1 }
    {
        let world = self.game.world(&self.players);
        let device = &mut self.devices[row.0 as usize];
        let lists = call_one(device, call, self.moment, world);
        let due = device.due();
        self.alarms.set(row, due);
        lists
    }

    /// Whether the condition of a binding is met; it is if there is none.
    pub(crate) fn meets(&self, condition: Option<Condition>) -> bool
        requires { IsConditionWithin self.now.plan condition }
        ensures { result ≡ is_met self.now.plan self.now.machine.players condition }
    {
        self.players.meets(condition)
    }

    /// An action on a variable of the current player. If the variable changes, its line is
    /// written, and its event posted.
    // Inlined like `write`: it is done for each action on a variable.
    #[inline(always)]
    pub(crate) fn change_variable(
        &mut self,
        owner: Owner,
        variable: VariableId,
        action: VariableAction,
        number: i64,
        event: EventId,
    )
        requires variable { variable.0 < length self.old.plan.variables }
        requires room { IsWithin self.old.room
            (change_variable self.old.plan owner variable action number event self.old.machine) }
        ensures { self.new ≡ after (change_variable self.old.plan owner variable action number event) self.old }
    {
        let player = self.players.current();
        if let Some(value) = self.players.change(variable, action, number) {
            self.write(owner, Happening::Player(player, variable, value));
            self.post(owner, event);
        }
    }

    /// The ledger books this, which it may, and the line of it is written.
    pub(crate) fn book(&mut self, owner: Owner, call: BallCall)
        requires there { IsThere (length self.old.plan.rows) (ledger_call call) }
        requires room { IsWithin self.old.room (book owner (ledger_call call) self.old.machine) }
        ensures { self.new ≡ after (book owner (ledger_call call)) self.old }
    {
        let booking = book(&mut self.ledger, call);
        let counts = counts_of(&self.ledger);
        self.write(owner, Happening::Balls(booking, counts));
    }

    /// Whether a ball that enters a device now was on its way there.
    pub(crate) fn awaits(&self, device: RowId) -> bool
        requires { device.0 < length self.now.plan.rows }
        ensures { result ≡ is_awaited (origin_of device self.now.machine.ledger) }
    {
        self.ledger.transit(BallTarget::Device(device)) > 0
    }

    /// The game and its players go on as an event of the game says. Reports what else it leads to.
    pub(crate) fn play(&mut self, event: GameEvent) -> GameWork
        ensures state { self.new ≡ after (play_event self.old.plan event) self.old }
        ensures work { IsWorkOfGame self.old.plan event self.old.machine result }
    {
        let home = home(self.plan, &self.ledger);
        self.game.work(event, &mut self.players, home)
    }

    /// How many players there are.
    pub(crate) fn player_count(&self) -> usize
        ensures { result ≡ length self.now.machine.players.players }
    {
        self.players.count()
    }

    /// The score of a player is told.
    pub(crate) fn tell_score(&mut self, player: usize)
        requires first { 1 ≤ player }
        requires last { player ≤ length self.old.machine.players.players }
        requires room { length self.old.machine.lines < self.old.room }
        ensures { self.new ≡ after (write_final self.old.plan player) self.old }
    {
        let score = self.players.score(player);
        self.write(Owner::Machine, Happening::Final(player, score));
    }

    /// An owner asks for a command to a coil that there is. It is sent or skipped, and either way
    /// there is a line.
    pub(crate) fn ask(&mut self, owner: Owner, command: Command)
        requires coil { (coil_of command).0 < length self.old.machine.coils }
        requires moment { self.old.machine.moment < 2 ^ 40 }
        requires room { length self.old.machine.lines < self.old.room }
        ensures { self.new ≡ after (ask_coil owner command) self.old }
    {
        let happening = match self.coils.ask(command, owner, self.moment) {
            Answer::Sent(sent) => Happening::Coil(sent),
            Answer::Skipped => Happening::Skip(command),
        };
        self.write(owner, happening);
    }

    /// The first coil that the owner holds is turned off, if one is. Reports the command that is
    /// sent.
    pub(crate) fn release(&mut self, owner: Owner) -> Option<Command>
        ensures state { self.new ≡ after (λ s. set_coils (after_release owner s.moment s.coils) s) self.old }
        ensures command { result ≡ answer_release owner self.old.machine.moment self.old.machine.coils }
    {
        self.coils.release(owner, self.moment)
    }

    /// A switch that there is has a new raw level. Reports the change if it is accepted at once.
    pub(crate) fn change(&mut self, at: u64, switch: SwitchId, level: bool) -> Option<Change>
        requires at { at < 2 ^ 40 }
        requires switch { switch.0 < length self.old.machine.switches.kinds }
        ensures state { self.new ≡ after (set_switches (after_change switch level at self.old.machine.switches))
            self.old }
        ensures reports { result ≡ reported_by_change switch level at self.old.machine.switches }
    {
        self.switches.change(switch, level, at)
    }

    /// Ends the machine, and gives the devices back. Each is told at the moment of the latest
    /// stimulus, which has to be before 2^40 ms, that its mode stops. What it answers is left out.
    pub fn stop_devices(self) -> Vec<D>
        requires { self.machine.moment < 2 ^ 40 }
        ensures { AreStopped self.entry.plan self.entry.machine (map D.row_of result.items)
            (map D.state_of result.items) }
    {
        let world = self.game.world(&self.players);
        let mut devices = self.devices;
        stop_all(&mut devices, self.moment, world);
        devices
    }

    /// Puts a device in the place of the device of a row. The plan has to have this row. The new one has
    /// to be a device of that row, in the state that `state` gives. The moment of the latest stimulus
    /// has to be before 2^40 ms: at this moment the device that was there is told that its mode stops.
    /// Then it is given back, and what it answers is left out. The core stays as it is, and takes no
    /// memory.
    pub fn exchange(&mut self, row: RowId, device: D) -> D
        requires there { row.0 < length self.old.machine.devices }
        requires moment { self.old.machine.moment < 2 ^ 40 }
        requires row { D.row_of device ≡ row_at self.old.plan row }
        requires state { D.state_of device ≡ device_at self.old.machine row }
        ensures same { self.new ≡ self.old }
        ensures row { D.row_of result ≡ row_at self.old.plan row }
        ensures state { D.state_of result
            ≡ stopped_state self.old.machine.moment (world_of self.old.machine) (row_at self.old.plan row)
            (device_at self.old.machine row) }
    {
        let world = self.game.world(&self.players);
        let mut former = put_in_place(&mut self.devices, row, device);
        stop_one(&mut former, self.moment, world);
        former
    }

    /// The raw level of the switch that is due next is accepted, which one must be.
    pub(crate) fn fire(&mut self) -> Change
        requires { IsSome (next_due self.old.machine.switches) }
        ensures state { self.new ≡ after (set_switches (after_fire self.old.machine.switches)) self.old }
        ensures reports { reported_by_fire self.old.machine.switches ≡ Some result }
    {
        self.switches.fire()
    }
}

/// One call of one device.
// Inlined like `Core::write`: it is done for each call of a device.
#[inline(always)]
fn call_one<D: Device>(device: &mut D, call: Call, now: u64, world: World) -> Outcome
    requires moment { now < 2 ^ 40 }
    requires may { MayCome call (D.state_of device.old) }
    ensures row { D.row_of device.new ≡ D.row_of device.old }
    ensures state { D.state_of device.new ≡ (device_step (D.row_of device.old).settings call now world
        (D.state_of device.old)).0 }
    ensures lists { result.items ≡ (device_step (D.row_of device.old).settings call now world
        (D.state_of device.old)).1 }
{
    match call {
        Call::ModeStart => device.start(now, world),
        Call::ModeStop => device.stop(now, world),
        Call::Fire => device.fire(now, world),
        Call::Act(act) => device.act(act, now, world),
    }
}

/// Devices stop. What they answer is left out.
fn stop_all<D: Device>(devices: &mut [D], moment: u64, world: World)
    requires { moment < 2 ^ 40 }
    ensures rows { map D.row_of devices.new ≡ map D.row_of devices.old }
    ensures states { map D.state_of devices.new
        ≡ map (λ d. stopped_state moment world (D.row_of d) (D.state_of d)) devices.old }
{
    for device in devices {
        stop_one(device, moment, world);
    }
}

/// One device stops. What it answers is left out.
fn stop_one<D: Device>(device: &mut D, now: u64, world: World)
    requires { now < 2 ^ 40 }
    ensures row { D.row_of device.new ≡ D.row_of device.old }
    ensures state { D.state_of device.new ≡ stopped_state now world (D.row_of device.old) (D.state_of device.old) }
{
    let _ = call_one(device, Call::ModeStop, now, world);
}

/// Of an alarm of a switch and one of a device the one that comes first: the switch's, if they
/// are due at one moment.
fn first_of(switch: Option<(u64, SwitchId)>, device: Option<(u64, RowId)>) -> Option<(u64, Source)>
    ensures { option_map alarm_view result
        ≡ first_of (option_map (λ d. (d.0, of_switch d.1)) switch) (option_map (λ d. (d.0, of_device d.1)) device) }
{
    match (switch, device) {
        (None, None) => None,
        (Some((at, switch)), None) => Some((at, Source::Switch(switch))),
        (None, Some((at, row))) => Some((at, Source::Device(row))),
        (Some((at, switch)), Some((later, row))) => {
            if at <= later {
                Some((at, Source::Switch(switch)))
            } else {
                Some((later, Source::Device(row)))
            }
        }
    }
}
