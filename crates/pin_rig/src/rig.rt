//! The rig.

ghost use Rattle.std.specs.Prelude.{◌≡◌};

use crate::cascade::run_cascade;
use crate::exchange::Refusal;
use crate::input::{Input, RigFault, StepFault, check_moment};
use coil_driver::{Driver, ShutReport};
use coil_guard::{Board, Coils};
use device_objects::{Device, DeviceState, is_same_row, is_same_state};
use machine_core::{Core, Stimulus, begin};
use plan_tables::RowId;
use std::alloc::Global;
use std::marker::Model;
use written_machine::{Checked, Line};

/// The machine of an accepted configuration with its board, between two stimuli: no event waits, and
/// a run of the plan leads to its state. Moments are milliseconds, below 2^40.
///
/// At each stimulus the machine goes through its whole cascade. The commands of its lines are sent
/// to the board in order, after each event step. At the first one that the board does not take the
/// rig is halted: it sends nothing more, and refuses every input. The cascade goes on, and `now`,
/// `next_due` and `state` are those of its end then too.
///
/// A rig that is dropped sends the commands that `shut_down` sends.
pub struct Rig<'c, D: Device, B: Board> {
    checked: &'c Checked,
    core: Core<'c, D>,
    driver: Driver<B>,
    /// How many lines of the latest stimulus are shown.
    shown_lines: usize,
}

impl<'c, D: Device, B: Board> Model for Rig<'c, D, B> {
    ghost use Rattle.std.specs.Prelude.{take};
    ghost use Rattle.pin_rig.specs.Rig.{RigView};
    ghost use Rattle.pin_rig.specs.RigState.{IsHeld};

    ghost Value = { RigView };

    ghost view = { λ r. record {
      checked = r.checked.now;
      machine = r.core.machine;
      lines = take r.shown_lines r.core.machine.lines;
      board = r.driver.board;
      sent = r.driver.guard;
      faulted_coil = r.driver.faulted_coil;
    } };

    ghost invariant = { λ r. IsHeld r.checked.now r.core r.driver r.shown_lines };
}

impl<'c, D: Device, B: Board> Drop for Rig<'c, D, B> {
    fn drop(self) {
        let _ = self.end();
    }
}

impl<'c, D: Device, B: Board> Rig<'c, D, B> {
    ghost use Rattle.std.specs.Prelude.{◌≡◌, ℕ, false, map, slice_get, Err, IfErr, IfOk, IsOk, IsTrue, MatchResult};
    ghost use Rattle.std.specs.Prelude.{option_map, []};
    ghost use Rattle.std.specs.Borrow.{sem};
    ghost use Rattle.written_machine.specs.Run.{IsReached};
    ghost use Rattle.written_machine.specs.NextAlarm.{next_alarm};
    ghost use Rattle.pin_rig.specs.Rig.{timely, alarm_at, stimulus_at, RigStep, HasFailed, IsWhy, RunsUnlessHalted};
    ghost use Rattle.pin_rig.specs.Rig.{IsOfRun, IsNextMoment};
    ghost use Rattle.pin_rig.specs.Admission.{GivesStimulus, IsAdmitted, alarm_by, IsTaken, IsTakenToHalt};
    ghost use Rattle.coil_driver.specs.Board.{board_view};
    ghost use Rattle.coil_driver.specs.ShutDown.{ArePutOff};
    ghost use Rattle.pin_rig.specs.ShutDown.{coils_to_put_off};
    ghost use Rattle.pin_rig.specs.Steps.{at_rest};
    ghost use Rattle.machine_core.specs.Stimuli.{stimulus_view};
    ghost use Rattle.machine_core.specs.Fit.{IsFit, IsFirstWrong};
    ghost use Rattle.machine_core.specs.Stopping.{AreStopped};
    ghost use Rattle.pin_rig.specs.Lending.{HasStepped};
    ghost use Rattle.pin_rig.specs.Exchange.{IsRefused, IsTakenOut, MayTakePlace};

    /// The machine of an accepted configuration, as it begins: at moment 0, with all switches
    /// inactive, all coils off, no ball known, no game and no event waiting. It has a device for each
    /// row of the plan, in the order of the rows, and a board for its coils, to which nothing is sent
    /// yet. Only this call takes memory: room for as many players as the game allows, and for as many
    /// waiting events and lines as the bound says.
    ///
    /// # Errors
    ///
    /// The first of these that applies. The devices and the board are dropped then.
    ///
    /// - `NoMemory`: memory ran out.
    /// - `WrongDevice`: a device is not the one of its row, in its first state; or there are too
    ///   few devices, or too many.
    pub fn new(
        alloc: Global,
        checked: &'c Checked,
        devices: Vec<D>,
        board: B,
    ) -> Result<Rig<'c, D, B>, RigFault>
        ensures rest { IfOk result (λ rig. rig
            ≡ at_rest checked.now (board_view B.command_list B.fault_count B.answers board)) }
        ensures of_run { IfOk result (λ rig. IsReached checked.now.plan [] rig.machine) }
        ensures fit { IfOk result (λ rig. IsFit checked.now.plan (map D.row_of devices.items)
            (map D.state_of devices.items)) }
        ensures wrong { (row : ℕ) → result ≡ Err (RigFault.WrongDevice (record { 0 = row }))
            → IsFirstWrong checked.now.plan (map D.row_of devices.items) (map D.state_of devices.items) row }
    {
        let plan = checked.plan();
        let guard = Coils::new(alloc, plan)?;
        match Core::new(alloc, plan, checked.bound() as usize, devices) {
            Ok(core) => Ok(Rig {
                checked,
                core,
                driver: Driver::new(board, guard),
                shown_lines: 0,
            }),
            Err(fault) => Err(fault),
        }
    }

    /// Takes one input, and runs the whole cascade that it begins, the handlers of each event in
    /// plan order. It sends the commands of the lines to the board in order: those of the input
    /// itself, and then those of each event step, before the next one begins. It returns the lines
    /// of the input and of its event steps, in the order in which they came. After a refusal,
    /// `trace` still returns the lines of the step before.
    ///
    /// # Errors
    ///
    /// The first of these that applies. Nothing has changed then, except after `BoardFault`.
    ///
    /// - `Halted`: the board has not taken a command of an earlier step.
    /// - `NoSuchSwitch`: the input is a change of a switch that the plan does not have.
    /// - `NoAlarm`: the input is an alarm, and none is due.
    /// - `Backwards`: the moment of a change or a wait is before that of the latest stimulus.
    /// - `TooLate`: the moment of the input is 2^40 ms or later.
    /// - `AlarmPending`: an alarm is due at or before the moment of a change or a wait.
    /// - `BoardFault`: the board has not taken a command of the cascade, so its count of faults has
    ///   risen, or was at 2^64 - 1 already. Any other answer leaves the count as it was.
    ///   `trace` has the lines before the line of this command, and the board has taken their
    ///   commands. Nothing more is sent, and the rig is halted. The machine has gone on to the end
    ///   of the cascade: `now`, `next_due` and `state` are of that end.
    pub fn step(&mut self, input: Input) -> Result<&[Line], StepFault>
        ensures* after { sem 𝓛 (HasStepped D.row B.row D.Device B.Board input self.entry result) }
        ensures judges { MatchResult result (λ _. IsOk (stimulus_at self.old input))
            (λ fault. IsWhy (stimulus_at self.old input) fault) }
    {
        self.act(input)?;
        Ok(self.trace())
    }

    /// The stimulus that an input is, if `step` does not refuse it now. The rig takes it by `take`,
    /// without judging it again.
    ///
    /// # Errors
    ///
    /// Those of `step`, in their order, but for `BoardFault`.
    pub fn admit(&self, input: Input) -> Result<Stimulus, StepFault>
        ensures { GivesStimulus result (stimulus_at self.now input) }
    {
        if self.driver.is_halted() {
            return Err(StepFault::Halted);
        }
        match input {
            Input::Change { at, switch, level } => {
                if switch.0 as usize >= self.checked.plan().switch_count() {
                    return Err(StepFault::NoSuchSwitch);
                }
                self.judge_moment(at, Stimulus::SwitchChange(at, switch, level))
            }
            Input::Alarm => self.judge_alarm(),
            Input::Wait { at } => self.judge_moment(at, Stimulus::Wait(at)),
        }
    }

    /// The alarm that is due next, as a stimulus, if it is due at or before a moment, in milliseconds.
    pub fn alarm_by(&self, until: u64) -> Option<Stimulus>
        ensures alarm { option_map stimulus_view result ≡ alarm_by until self.now.machine }
        ensures of_run { IsOfRun self.now }
    {
        let (at, source) = self.core.due()?;
        if at <= until {
            Some(Stimulus::Alarm(at, source))
        } else {
            None
        }
    }

    /// Takes a stimulus that `step` would not refuse, as `step` takes its input: it judges nothing. The
    /// stimulus is one that `admit` gave, if no other has come since; or one of which the caller knows
    /// as much. Whether the board has taken all commands. If not, that is the `BoardFault` of `step`.
    pub fn take(&mut self, stimulus: Stimulus) -> bool
        requires { IsAdmitted self.old (stimulus_view stimulus) }
        ensures takes { IsTrue result → IsTaken (stimulus_view stimulus) self.old self.new }
        ensures halts { result ≡ false → IsTakenToHalt (stimulus_view stimulus) self.old self.new }
    {
        begin(&mut self.core, stimulus);
        match run_cascade(&mut self.core, &mut self.driver) {
            None => {
                self.shown_lines = self.core.lines().len();
                true
            }
            Some(place) => {
                self.shown_lines = place;
                false
            }
        }
    }

    /// The moment of the latest stimulus, in milliseconds.
    pub fn now(&self) -> u64
        ensures now { result ≡ self.now.machine.moment }
        ensures of_run { IsOfRun self.now }
    {
        self.core.moment()
    }

    /// The moment of the alarm that is due next, in milliseconds. None if nothing is due at all.
    pub fn next_due(&self) -> Option<u64>
        ensures least { IsNextMoment self.now.machine result }
        ensures due { result ≡ option_map (λ a. a.0) (next_alarm self.now.machine) }
        ensures of_run { IsOfRun self.now }
    {
        let (at, _) = self.core.due()?;
        Some(at)
    }

    /// The state of the device of a row, if the plan has the row.
    pub fn state(&self, row: RowId) -> Option<DeviceState>
        ensures state { result ≡ slice_get self.now.machine.devices row.0 }
        ensures of_run { IsOfRun self.now }
    {
        if row.0 as usize >= self.checked.plan().rows().len() {
            return None;
        }
        Some(self.core.state(row))
    }

    /// The lines of the latest stimulus, in the order in which they came. If the board has not
    /// taken a command, they are those before the line of this command.
    pub fn trace(&self) -> &[Line]
        ensures lines { result.now ≡ self.now.lines }
        ensures running { RunsUnlessHalted self.now }
        ensures of_run { IsOfRun self.now }
    {
        &self.core.lines()[..self.shown_lines]
    }

    /// Puts a device in the place of the device of a row, while the machine runs. The new one has to
    /// be a device of that row, in the state that `state` gives. Nothing else changes: each later call
    /// answers what it would have answered without the exchange. The device that was there is told
    /// that its mode stops, at the moment of the latest stimulus, and is given back. So nothing of it
    /// is due, and it ejects no ball. What it answers to that is left out. No memory is taken.
    ///
    /// # Errors
    ///
    /// The first of these that applies, with the device that was to take the place, as it was.
    ///
    /// - `Halted`: the board has not taken a command of an earlier step.
    /// - `NoSuchRow`: the plan has no row of this number.
    /// - `WrongRow`: the device is one of another row.
    /// - `WrongState`: the device is in another state than the one of the row.
    pub fn exchange(&mut self, row: RowId, device: D) -> Result<D, (Refusal, D)>
        ensures same { self.new ≡ self.old }
        ensures may { IfOk result (λ taken. MayTakePlace self.old row (D.row_of device) (D.state_of device)) }
        ensures takes { IfOk result (λ taken. IsTakenOut self.old row (D.row_of taken) (D.state_of taken)) }
        ensures refused { IfErr result (λ refused. IsRefused self.old row (D.row_of device) (D.state_of device)
            refused.0) }
        ensures keeps { IfErr result (λ refused. refused.1 ≡ device) }
    {
        match self.judge_device(row, &device) {
            Ok(()) => Ok(self.core.exchange(row, device)),
            Err(refusal) => Err((refusal, device)),
        }
    }

    /// Whether a device may take the place of the one of a row, or why not.
    fn judge_device(&self, row: RowId, device: &D) -> Result<(), Refusal>
        ensures { MatchResult result (λ _. MayTakePlace self.now row (D.row_of device.now) (D.state_of device.now))
            (λ refusal. IsRefused self.now row (D.row_of device.now) (D.state_of device.now) refusal) }
    {
        let is_halted = self.driver.is_halted();
        let plan = self.checked.plan();
        if is_halted {
            return Err(Refusal::Halted);
        }
        if row.0 as usize >= plan.rows().len() {
            return Err(Refusal::NoSuchRow);
        }
        if !is_same_row(&device.row(), &plan.row(row)) {
            return Err(Refusal::WrongRow);
        }
        if !is_same_state(&device.state(), &self.core.state(row)) {
            return Err(Refusal::WrongState);
        }
        Ok(())
    }

    /// Ends the machine, and gives the board back. First a disable is sent, in the order of their
    /// numbers, to each coil that is on at the moment of the latest stimulus by the commands that the
    /// board has taken, and to the coil whose command it has not taken. A fault does not stop this.
    /// Then the devices stop, and they are dropped at the end. The report has the coils whose disable
    /// the board has taken, and the number of the others.
    pub fn shut_down(self) -> (B, ShutReport)
        ensures off { ArePutOff (coils_to_put_off self.entry) self.entry.board result.1.off.items result.1.faults
            (board_view B.command_list B.fault_count B.answers result.0) }
    {
        let (_, board, report) = self.end();
        (board, report)
    }

    /// What `shut_down` and a drop do. Gives the devices, which have stopped, the board and the report.
    fn end(self) -> (Vec<D>, B, ShutReport)
        ensures stops { AreStopped self.entry.checked.plan self.entry.machine (map D.row_of result.0.items)
            (map D.state_of result.0.items) }
        ensures off { ArePutOff (coils_to_put_off self.entry) self.entry.board result.2.off.items result.2.faults
            (board_view B.command_list B.fault_count B.answers result.1) }
    {
        let Rig {
            checked,
            core,
            mut driver,
            shown_lines: _,
        } = self;
        let now = core.moment();
        // The coils first: what a device does when it stops must not keep them on.
        let report = driver.put_off(checked.plan(), now);
        let devices = core.stop_devices();
        (devices, driver.into_board(), report)
    }

    /// One input, if it is not refused.
    fn act(&mut self, input: Input) -> Result<(), StepFault>
        ensures { MatchResult result (λ _. RigStep input self.old self.new)
            (λ fault. HasFailed input self.old self.new fault) }
    {
        let stimulus = self.admit(input)?;
        if self.take(stimulus) {
            Ok(())
        } else {
            Err(StepFault::BoardFault)
        }
    }

    /// A stimulus at this moment, or why it is refused.
    fn judge_moment(&self, at: u64, stimulus: Stimulus) -> Result<Stimulus, StepFault>
        ensures { GivesStimulus result (timely self.now.machine at (stimulus_view stimulus)) }
    {
        check_moment(self.now(), at)?;
        if self.core.is_due_by(at) {
            return Err(StepFault::AlarmPending);
        }
        Ok(stimulus)
    }

    /// The alarm that comes next, or why none does.
    fn judge_alarm(&self) -> Result<Stimulus, StepFault>
        ensures { GivesStimulus result (alarm_at (next_alarm self.now.machine)) }
    {
        let (at, source) = self.core.due().ok_or(StepFault::NoAlarm)?;
        check_moment(self.now(), at)?;
        Ok(Stimulus::Alarm(at, source))
    }
}
