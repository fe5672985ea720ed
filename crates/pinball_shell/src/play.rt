//! A log is read and played.

ghost use Rattle.std.specs.Prelude.{◌≡◌, ◌≢◌, ◌^◌, ◌<◌, ◌≤◌, ◌⊎◌, false, None, IfOk, IfErr, OnOk, IfSome, IsErrOf};
ghost use Rattle.std.specs.Prelude.{length, map};
ghost use Rattle.std.specs.Io.KnownBytes.{IsAtEnd, Keeps, append_known};
ghost use Rattle.written_machine.specs.Machine.{initial};
ghost use Rattle.coil_driver.specs.Board.{board_view};
ghost use Rattle.machine_core.specs.Fit.{IsFit};
ghost use Rattle.machine_core.specs.Stimuli.{stimulus_view};
ghost use Rattle.pin_rig.specs.Refused.{admission};
ghost use Rattle.pin_rig.specs.Admission.{IsAdmitted};
ghost use Rattle.pinball_shell.specs.LogView.{given_by_said};
ghost use Rattle.pinball_shell.specs.RunOfLog.{if_admitted};
ghost use Rattle.pinball_shell.specs.RunGiven.{PrintsPlayOf};
ghost use Rattle.pinball_shell.specs.Ends.{IsTextPlayedOn};
ghost use Rattle.pinball_shell.specs.TextRead.{HasAtMost, HasMoreThan};
ghost use Rattle.pinball_shell.specs.Played.{worse_of, GivesTimed, IsRigOf, PlaysStimulus, PlaysAlarms, PlaysLine};
ghost use Rattle.pinball_shell.specs.Played.{IsLogPlayed, GivesBack};

use crate::fault::{ShellFault, Verdict};
use crate::log_line::{LogLine, first_line, read_line};
use crate::log_player::LogPlayer;
use crate::refusal::{LogRefusal, put_refused};
use crate::switch_guesses::SwitchGuesses;
use crate::text::read_all;
use coil_guard::Board;
use config_checker::Checked;
use device_objects::Device;
use pin_rig::{Rig, StepFault, Stimulus, check_moment};
use plan_tables::Plan;
use std::alloc::Global;
use std::io::{Read, Write};
use trace_lines::{Page, PrintedPlan, WriteFailed, put_trace};

/// The most bytes that a log may have: 16 MiB.
pub const LOG_LIMIT: usize = 16_777_216;

/// Why playing does not go on.
#[derive(Clone, Copy)]
pub enum Stop {
    /// A writer failed.
    Write,
    /// The board has not taken a command, and the rig is halted.
    Board,
}

impl From<WriteFailed> for Stop {
    ghost use Rattle.pinball_shell.specs.declared.play.Stop.TheVariants.{Write};

    ghost from_gives = { λ _ e. e ≡ Write };

    fn from(_e: WriteFailed) -> Stop {
        Stop::Write
    }
}

/// Reads a log and plays it on a machine with this board and these devices, one for each row of the
/// plan, in the order of the rows. Writes the lines of the trace in their order, several at a time, and a
/// line for each line of the log that is refused. At the end the machine is shut down, and a line is written for
/// each coil that is turned off then, at the moment of the latest stimulus. The verdict is `Yes` if
/// no line of the log is refused.
///
/// The lines of the trace are those of the run of the plan that the log gives: its changes and
/// waits in their order, before each the alarms that are due by its moment, and none after the
/// last. Equal handlers run in plan order. At the end no event waits.
///
/// The board is sent the commands of the lines, in order, and at the end a disable for each coil
/// that is still on. If it does not take a command of the trace, the log ends there: the lines before
/// that of the command are written, and then `refused` for the line of the log that was being played.
/// The machine is shut down in this case too, and this coil is turned off with those that are on.
///
/// If the board reports its answers to the commands to come, all that is written follows from the
/// plan, the log and these answers.
///
/// # Errors
///
/// - `TooLong`: the log has more than 16 MiB.
/// - `Read`: the reader failed.
/// - `NoMemory`: memory ran out.
/// - `WrongDevice`: a device is not the one of its row, in its first state; or there are too few
///   devices, or too many.
/// - `Write`: the writer failed. How much was written is not said.
///
/// The log is read to its end before the devices are judged. All memory is taken before anything is
/// written. So after all but `Write` nothing has been written. After `Write` the rig is dropped, which
/// sends the commands of `Rig::shut_down`. The devices and the board are dropped in any case. No
/// clause says what was sent to the board before an error.
pub fn play_text<D: Device, B: Board, R: Read, W: Write>(
    alloc: Global,
    checked: &Checked,
    devices: Vec<D>,
    board: B,
    reader: &mut R,
    writer: &mut W,
) -> Result<Verdict, ShellFault>
    ensures plays { IfOk result (IsTextPlayedOn checked.now (R.remaining reader.old)
        (board_view B.command_list B.fault_count B.answers board) (W.contents writer.old) (W.contents writer.new)) }
    ensures run { OnOk result (IfSome (R.remaining reader.old) (PrintsPlayOf checked.now)) }
    ensures silent { IfErr result (λ e. e ≢ ShellFault.Write → Keeps (W.contents writer.old) (W.contents writer.new)) }
    ensures within { OnOk result (HasAtMost (2 ^ 24) (R.remaining reader.old)) }
    ensures too_long { IsErrOf result ShellFault.TooLong → HasMoreThan (2 ^ 24) (R.remaining reader.old) }
    ensures fit { OnOk result (IsFit checked.now.plan (map D.row_of devices.items) (map D.state_of devices.items)) }
    ensures wrong { IsErrOf result ShellFault.WrongDevice
        → ¬ (IsFit checked.now.plan (map D.row_of devices.items) (map D.state_of devices.items)) }
    ensures log_first { IsErrOf result ShellFault.WrongDevice
        → IsAtEnd (R.remaining reader.new) × HasAtMost (2 ^ 24) (R.remaining reader.old) }
{
    let log = read_all(alloc, reader, LOG_LIMIT)?;
    let (verdict, _board) = play_log(alloc, checked, devices, board, &log, writer)?;
    Ok(verdict)
}

/// Plays a log that was read, and gives the board back. Fails only by memory and by its devices,
/// before anything is written, and by the writer.
fn play_log<D: Device, B: Board, W: Write>(
    alloc: Global,
    checked: &Checked,
    devices: Vec<D>,
    board: B,
    log: &[u8],
    writer: &mut W,
) -> Result<(Verdict, B), ShellFault>
    requires { length log.now ≤ 2 ^ 24 }
    ensures plays { IfOk result (GivesBack (board_view B.command_list B.fault_count B.answers) checked.now log.now
        board (W.contents writer.old) (W.contents writer.new)) }
    ensures run { PrintsPlayOf checked.now log.now }
    ensures silent { IfErr result (λ e. e ≢ ShellFault.Write → Keeps (W.contents writer.old) (W.contents writer.new)) }
    ensures fails { IfErr result (λ e. (e ≡ ShellFault.NoMemory) ⊎ (e ≡ ShellFault.WrongDevice)
        ⊎ (e ≡ ShellFault.Write)) }
    ensures fit { OnOk result (IsFit checked.now.plan (map D.row_of devices.items) (map D.state_of devices.items)) }
    ensures wrong { IsErrOf result ShellFault.WrongDevice
        → ¬ (IsFit checked.now.plan (map D.row_of devices.items) (map D.state_of devices.items)) }
{
    let mut player = LogPlayer::new(alloc, checked, devices, board)?;
    let verdict = play_lines(&mut player, log, writer)?;
    player.write_out(writer)?;
    let board = player.shut_down(writer)?;
    Ok((verdict, board))
}

/// Plays the lines of a log on a rig at rest, until the board has not taken a command. What is on the
/// page at the end is still to be written. Fails only by the writer.
fn play_lines<D: Device, B: Board, W: Write>(
    player: &mut LogPlayer<'_, D, B>,
    log: &[u8],
    writer: &mut W,
) -> Result<Verdict, ShellFault>
    requires log { length log.now ≤ 2 ^ 24 }
    requires rest { player.old.rig.machine ≡ initial player.old.plan }
    requires running { player.old.rig.faulted_coil ≡ None }
    requires going { player.old.has_stopped ≡ false }
    ensures plays { IfOk result (λ v. IsLogPlayed player.old.plan player.old.rig.checked.bound log.now player.old.rig
        player.new.rig (append_known (W.contents writer.old) player.old.page)
        (append_known (W.contents writer.new) player.new.page) v) }
    ensures plan { player.new.plan ≡ player.old.plan }
    ensures fails { IfErr result (λ e. e ≡ ShellFault.Write) }
{
    let mut verdict = Verdict::Yes;
    let mut number = 1;
    let mut rest = log;
    while !rest.is_empty() {
        let (line, after) = first_line(rest);
        match player.play(number, line, writer) {
            Ok(found) => verdict = worse(verdict, found),
            Err(Stop::Board) => return player.refuse_for_board(number, writer),
            Err(Stop::Write) => return Err(ShellFault::Write),
        }
        number += 1;
        rest = after;
    }
    Ok(verdict)
}

/// Refused if either is.
pub fn worse(before: Verdict, line: Verdict) -> Verdict
    ensures { result ≡ worse_of before line }
{
    match line {
        Verdict::Yes => before,
        Verdict::Refused => Verdict::Refused,
    }
}

/// Plays a line that has this number, unless it is refused.
pub(crate) fn play_line<D: Device, B: Board, W: Write>(
    plan: &PrintedPlan<'_>,
    guesses: &SwitchGuesses,
    rig: &mut Rig<'_, D, B>,
    number: usize,
    line: &[u8],
    page: &mut Page,
    writer: &mut W,
) -> Result<Verdict, Stop>
    requires { IsRigOf plan.now rig.old }
    ensures { PlaysLine plan.now number line.now rig.old rig.new (append_known (W.contents writer.old) page.old)
        (append_known (W.contents writer.new) page.new) result }
{
    match given_by(plan, guesses, rig.now(), read_line(line)) {
        Ok(None) => Ok(Verdict::Yes),
        Ok(Some((at, stimulus))) => {
            play_alarms(plan, rig, at, page, writer)?;
            play_stimulus(plan, rig, stimulus, page, writer)?;
            Ok(Verdict::Yes)
        }
        Err(refusal) => {
            put_refused(number, refusal, page, writer)?;
            Ok(Verdict::Refused)
        }
    }
}

/// What a line gives if the latest stimulus came at `now`: nothing, a stimulus and its moment, or
/// why it is refused. Once the alarms due by its moment have come, the rig takes it as it is.
fn given_by(
    plan: &PrintedPlan<'_>,
    guesses: &SwitchGuesses,
    now: u64,
    line: LogLine<'_>,
) -> Result<Option<(u64, Stimulus)>, LogRefusal>
    ensures { GivesTimed result (given_by_said plan.now now line.entry) }
{
    match line {
        LogLine::Nothing => Ok(None),
        LogLine::Unreadable => Err(LogRefusal::BadLine),
        LogLine::Wait(at) => given_at(now, at, Stimulus::Wait(at)),
        LogLine::Change(at, name, level) => match guesses.find(plan.tables(), name) {
            None => Err(LogRefusal::Step(StepFault::NoSuchSwitch)),
            Some(switch) => given_at(now, at, Stimulus::SwitchChange(at, switch, level)),
        },
    }
}

/// A stimulus and its moment, if the moment is admitted.
fn given_at(now: u64, at: u64, stimulus: Stimulus) -> Result<Option<(u64, Stimulus)>, LogRefusal>
    ensures { result ≡ if_admitted (admission now at) (at, stimulus) }
{
    check_moment(now, at)?;
    Ok(Some((at, stimulus)))
}

/// Plays the alarms that come by a moment, until the board has not taken a command.
fn play_alarms<D: Device, B: Board, W: Write>(
    plan: &PrintedPlan<'_>,
    rig: &mut Rig<'_, D, B>,
    until: u64,
    page: &mut Page,
    writer: &mut W,
) -> Result<(), Stop>
    requires until { until < 2 ^ 40 }
    requires forward { rig.old.machine.moment ≤ until }
    requires rig { IsRigOf plan.now rig.old }
    ensures { PlaysAlarms plan.now until rig.old rig.new (append_known (W.contents writer.old) page.old)
        (append_known (W.contents writer.new) page.new) result }
{
    while let Some(alarm) = rig.alarm_by(until) {
        play_stimulus(plan, rig, alarm, page, writer)?;
    }
    Ok(())
}

/// Plays a stimulus that the rig takes, and puts its lines on the page. If the board has not taken a command,
/// these are the lines before the line of this command.
fn play_stimulus<D: Device, B: Board, W: Write>(
    plan: &PrintedPlan<'_>,
    rig: &mut Rig<'_, D, B>,
    stimulus: Stimulus,
    page: &mut Page,
    writer: &mut W,
) -> Result<(), Stop>
    requires may { IsAdmitted rig.old (stimulus_view stimulus) }
    requires plan { rig.old.checked.plan ≡ plan.now }
    ensures { PlaysStimulus plan.now (stimulus_view stimulus) rig.old rig.new
        (append_known (W.contents writer.old) page.old) (append_known (W.contents writer.new) page.new) result }
{
    let is_served = rig.take(stimulus);
    put_trace(plan, rig.trace(), page, writer)?;
    if is_served { Ok(()) } else { Err(Stop::Board) }
}
