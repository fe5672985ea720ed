//! The lines of a log are answered one by one, as they come.

ghost use Rattle.std.specs.Prelude.{◌≡◌, ◌≤◌, ◌⊎◌, [], false, length, map, take, IfOk, IfErr, IfSome, IsErrOf, OnOk};
ghost use Rattle.std.specs.Io.KnownBytes.{Appends, Keeps, append_known};
ghost use Rattle.std.specs.Io.Buffered.{writer_buffer};
ghost use Rattle.coil_driver.specs.Board.{board_view};
ghost use Rattle.machine_core.specs.Fit.{IsFit};
ghost use Rattle.pinball_shell.specs.TraceText.{refused_text};
ghost use Rattle.pinball_shell.specs.LogPlayers.{with_page, board_refusal};
ghost use Rattle.live_machine.specs.Talk.{Hears};
ghost use Rattle.live_machine.specs.Answers.{due_text};
ghost use Rattle.live_machine.specs.Live.{RunsLive, IsSent};
ghost use Rattle.live_machine.specs.Wires.{wire_report, wire_contents};
ghost use Rattle.live_machine.specs.Going.{AppendsBoth, IsReady, IsNextReady, AnswersLine, AnswersLines, IsEnded};
ghost use Rattle.live_machine.specs.Going.{RunsRig};

use crate::link::{LONGEST_LINE, Link};
use crate::wire::Wire;
use coil_guard::Board;
use device_objects::Device;
use pinball_shell::{LogPlayer, ShellFault, Stop, Verdict, worse};
use std::alloc::Global;
use std::io::{self, Write};
use trace_lines::WriteFailed;
use written_machine::Checked;

/// Runs a machine live, with this board and these devices, one for each row of the plan, in the order
/// of the rows. First it tells when an alarm is due: `due MOMENT`, or `due -`. Then it hears lines of a
/// log, and answers each before it hears the next: with the lines that `play_text` writes for it,
/// and when an alarm is due then. The whole answer has been told before the next line is heard, at
/// once if it fits the room of the wire. At the end the machine is shut down, and a line is told for
/// each coil that is turned off. Nothing is left in the room of the wire then.
/// The verdict is `Yes` if no line was refused.
///
/// If the board does not take a command, the lines before that of the command are told, and then that
/// the line that was heard is refused. Nothing more is heard, and the machine is shut down.
///
/// # Errors
///
/// - `NoMemory`: memory ran out.
/// - `WrongDevice`: a device is not the one of its row, in its first state; or there are too few
///   devices, or too many.
/// - `Read`: a read failed. `TooLong`: a line has more than 4,096 bytes, or more lines came than can be
///   numbered. The lines before it have been answered. The machine was shut down, and the coils that
///   were turned off have been told.
/// - `Write`: the link did not take a text. The rig is dropped, which sends the commands of
///   `Rig::shut_down`.
///
/// The first two come before anything is heard or told. After them no memory is asked for.
pub fn run_live<D: Device, B: Board, L: Link>(
    alloc: Global,
    checked: &Checked,
    devices: Vec<D>,
    board: B,
    wire: &mut Wire<L>,
) -> Result<Verdict, ShellFault>
    ensures runs { RunsLive checked.now L.shows_lines (board_view B.command_list B.fault_count B.answers board)
        (wire_report L.report wire.old) (wire_report L.report wire.new) result }
    ensures sends { IsSent result (writer_buffer wire.new) }
    ensures fit { OnOk result (IsFit checked.now.plan (map D.row_of devices.items) (map D.state_of devices.items)) }
    ensures wrong { IsErrOf result ShellFault.WrongDevice
        → ¬ (IsFit checked.now.plan (map D.row_of devices.items) (map D.state_of devices.items)) }
{
    let player = LogPlayer::new(alloc, checked, devices, board)?;
    run_player(player, wire)
}

/// Runs a machine as it begins, and shuts it down.
fn run_player<D: Device, B: Board, L: Link>(
    player: LogPlayer<'_, D, B>,
    wire: &mut Wire<L>,
) -> Result<Verdict, ShellFault>
    requires { IsReady player }
    ensures runs { RunsRig player.entry.plan L.shows_lines player.entry.rig (wire_report L.report wire.old)
        (wire_report L.report wire.new) result }
    ensures sends { IsSent result (writer_buffer wire.new) }
{
    let mut player = player;
    if tell_due(player.next_due(), wire).is_err() {
        return Err(ShellFault::Write);
    }
    let end = answer_lines(&mut player, wire);
    if let Err(ShellFault::Write) = end {
        return end;
    }
    match end_machine(player, wire) {
        Ok(_board) => end,
        Err(fault) => Err(fault),
    }
}

/// Shuts the machine down, and tells which coils were turned off. Gives the board back. Fails only by
/// the link.
fn end_machine<D: Device, B: Board, L: Link>(
    player: LogPlayer<'_, D, B>,
    wire: &mut Wire<L>,
) -> Result<B, ShellFault>
    ensures ends { IfOk result (λ b. IsEnded player.entry.plan player.entry.rig
        (board_view B.command_list B.fault_count B.answers b) (wire_report L.report wire.old)
        (wire_report L.report wire.new)) }
    ensures fails { IfErr result (λ e. e ≡ ShellFault.Write) }
    ensures empty { OnOk result (writer_buffer wire.new ≡ []) }
{
    let board = player.shut_down(wire)?;
    match tell_all(wire) {
        Ok(()) => Ok(board),
        Err(_) => Err(ShellFault::Write),
    }
}

/// Hears and answers lines, to the end of the input, or until the board has not taken a command. What
/// is told of such a command may still be on its way.
fn answer_lines<D: Device, B: Board, L: Link>(
    player: &mut LogPlayer<'_, D, B>,
    wire: &mut Wire<L>,
) -> Result<Verdict, ShellFault>
    requires ready { IsReady player.old }
    requires empty { writer_buffer wire.old ≡ [] }
    ensures lines { AnswersLines player.old.plan L.shows_lines player.old.rig player.new.rig
        (wire_report L.report wire.old) (wire_report L.report wire.new) result }
    ensures plan { player.new.plan ≡ player.old.plan }
{
    let mut room = [0u8; LONGEST_LINE];
    let mut verdict = Verdict::Yes;
    for number in 1..usize::MAX {
        match hear(wire, &mut room) {
            Ok(None) => return Ok(verdict),
            Err(fault) => return Err(fault),
            Ok(Some(len)) => match answer_line(player, number, front(&room, len), wire) {
                Ok(found) => verdict = worse(verdict, found),
                Err(Stop::Board) => return refuse_last(player, number, wire),
                Err(Stop::Write) => return Err(ShellFault::Write),
            },
        }
    }
    Err(ShellFault::TooLong)
}

/// Hears a line from a link to which nothing is on its way.
fn hear<L: Link>(wire: &mut Wire<L>, room: &mut [u8]) -> Result<Option<usize>, ShellFault>
    requires { writer_buffer wire.old ≡ [] }
    ensures hears { Hears L.shows_lines room.new (wire_report L.report wire.old) (wire_report L.report wire.new)
        result }
    ensures within { IfOk result (λ len. IfSome len (λ n. n ≤ length room.new)) }
    ensures fails { IfErr result (λ e. (e ≡ ShellFault.Read) ⊎ (e ≡ ShellFault.TooLong)) }
    ensures empty { writer_buffer wire.new ≡ [] }
{
    wire.get_mut().link.hear(room)
}

/// So many bytes from the front of a room.
fn front(room: &[u8], len: usize) -> &[u8]
    requires { len ≤ length room.now }
    ensures { result.now ≡ take len room.now }
{
    room.split_at(len).0
}

/// Answers a line that has this number: plays it, unless it is refused, and tells what is printed for it
/// and when an alarm is due then. All of it has been told: nothing is left on the page or on the wire.
fn answer_line<D: Device, B: Board, L: Link>(
    player: &mut LogPlayer<'_, D, B>,
    number: usize,
    line: &[u8],
    wire: &mut Wire<L>,
) -> Result<Verdict, Stop>
    requires going { player.old.has_stopped ≡ false }
    requires page { player.old.page ≡ [] }
    ensures answers { AnswersLine player.old.plan number line.now player.old.rig player.new.rig
        (wire_report L.report wire.old) (wire_report L.report wire.new)
        (append_known (wire_contents L.report wire.old) player.old.page)
        (append_known (wire_contents L.report wire.new) player.new.page) result }
    ensures plan { player.new.plan ≡ player.old.plan }
    ensures next { OnOk result (IsNextReady player.new (writer_buffer wire.new)) }
{
    match player.play(number, line, wire) {
        Ok(verdict) => match tell_answer(player.next_due(), player, wire) {
            Ok(()) => Ok(verdict),
            Err(_) => Err(Stop::Write),
        },
        Err(stop) => Err(stop),
    }
}

/// Writes that the line of this number is refused, since the board has not taken a command.
fn refuse_last<D: Device, B: Board, L: Link>(
    player: &mut LogPlayer<'_, D, B>,
    number: usize,
    wire: &mut Wire<L>,
) -> Result<Verdict, ShellFault>
    ensures writes { OnOk result (Appends (append_known (wire_contents L.report wire.old) player.old.page)
        (wire_contents L.report wire.new) (refused_text number board_refusal)) }
    ensures verdict { IfOk result (λ v. v ≡ Verdict.Refused) }
    ensures fails { IfErr result (λ e. e ≡ ShellFault.Write) }
    ensures keeps { player.new ≡ with_page player.new.page player.old }
{
    let verdict = player.refuse_for_board(number, wire)?;
    match player.write_out(wire) {
        Ok(()) => Ok(verdict),
        Err(_) => Err(ShellFault::Write),
    }
}

/// Tells what is on the page, and when an alarm is due next.
fn tell_answer<D: Device, B: Board, L: Link>(
    next: Option<u64>,
    player: &mut LogPlayer<'_, D, B>,
    wire: &mut Wire<L>,
) -> Result<(), WriteFailed>
    ensures writes { OnOk result (AppendsBoth (wire_contents L.report wire.old) (wire_contents L.report wire.new)
        player.old.page (due_text next)) }
    ensures keeps { player.new ≡ with_page [] player.old }
    ensures empty { OnOk result (writer_buffer wire.new ≡ []) }
{
    player.write_out(wire)?;
    tell_due(next, wire)
}

/// Tells when an alarm is due next, after all that was written.
fn tell_due<L: Link>(next: Option<u64>, wire: &mut Wire<L>) -> Result<(), WriteFailed>
    ensures writes { OnOk result (Appends (wire_contents L.report wire.old) (wire_contents L.report wire.new)
        (due_text next)) }
    ensures empty { OnOk result (writer_buffer wire.new ≡ []) }
{
    match write_due(next, wire) {
        Ok(()) => tell_all(wire),
        Err(_) => Err(WriteFailed),
    }
}

/// Writes when an alarm is due next.
fn write_due<W: Write>(next: Option<u64>, writer: &mut W) -> io::Result<()>
    ensures { OnOk result (Appends (W.contents writer.old) (W.contents writer.new) (due_text next)) }
{
    match next {
        None => writer.write_all(b"due -\n"),
        Some(at) => writeln!(writer, "due {at}"),
    }
}

/// Tells all that was written.
fn tell_all<L: Link>(wire: &mut Wire<L>) -> Result<(), WriteFailed>
    ensures keeps { OnOk result (Keeps (wire_contents L.report wire.old) (wire_contents L.report wire.new)) }
    ensures empty { OnOk result (writer_buffer wire.new ≡ []) }
{
    match wire.flush() {
        Ok(()) => Ok(()),
        Err(_) => Err(WriteFailed),
    }
}
