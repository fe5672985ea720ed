//! A machine that plays lines of a log.

ghost use Rattle.std.specs.Prelude.{◌≡◌};

use crate::fault::{ShellFault, Verdict};
use crate::play::{Stop, play_line};
use crate::refusal::{LogRefusal, put_refused};
use crate::switch_guesses::SwitchGuesses;
use coil_guard::Board;
use config_checker::Checked;
use device_objects::Device;
use pin_rig::{Rig, StepFault};
use std::alloc::Global;
use std::io::Write;
use std::marker::Model;
use trace_lines::{Page, PrintedPlan, WriteFailed, write_off};

/// The rig of an accepted configuration, which plays the lines of a log one by one, and the page with
/// what is printed for them.
#[derive(Drop)]
pub struct LogPlayer<'c, D: Device, B: Board> {
    plan: PrintedPlan<'c>,
    guesses: SwitchGuesses,
    rig: Rig<'c, D, B>,
    page: Page,
    /// Whether a line could not be played to its end. Then no other is played.
    has_stopped: bool,
}

impl<'c, D: Device, B: Board> Model for LogPlayer<'c, D, B> {
    ghost use Rattle.pinball_shell.specs.LogPlayers.{PlayerView, RunsUnlessStopped};

    ghost Value = { PlayerView };

    ghost view = { λ p. record {
      plan = p.plan;
      rig = p.rig;
      page = p.page;
      has_stopped = p.has_stopped;
    } };

    ghost invariant = { λ p. RunsUnlessStopped p.plan p.rig p.has_stopped };
}

impl<'c, D: Device, B: Board> LogPlayer<'c, D, B> {
    ghost use Rattle.std.specs.Prelude.{◌≡◌, ◌⊎◌, true, false, Err, IfOk, IfErr, OnOk, IsErrOf, map, option_map, []};
    ghost use Rattle.std.specs.Io.KnownBytes.{Appends, append_known};
    ghost use Rattle.written_machine.specs.Accepted.{IsAccepted};
    ghost use Rattle.written_machine.specs.NextAlarm.{next_alarm};
    ghost use Rattle.coil_driver.specs.Board.{board_view};
    ghost use Rattle.machine_core.specs.Fit.{IsFit};
    ghost use Rattle.trace_lines.specs.Pages.{Puts};
    ghost use Rattle.pinball_shell.specs.TraceText.{refused_text};
    ghost use Rattle.pinball_shell.specs.Played.{PlaysLine, IsShutDown};
    ghost use Rattle.pinball_shell.specs.LogPlayers.{ready, with_page, board_refusal};

    /// The machine as it begins, with an empty page. It has a device for each row of the plan, in the
    /// order of the rows, and a board, to which nothing is sent yet. Only this call takes memory.
    ///
    /// # Errors
    ///
    /// - `NoMemory`: memory ran out.
    /// - `WrongDevice`: a device is not the one of its row, in its first state; or there are too few
    ///   devices, or too many.
    pub fn new(
        alloc: Global,
        checked: &'c Checked,
        devices: Vec<D>,
        board: B,
    ) -> Result<LogPlayer<'c, D, B>, ShellFault>
        ensures ready { IfOk result (λ player. player
            ≡ ready checked.now (board_view B.command_list B.fault_count B.answers board)) }
        ensures accepted { IsAccepted checked.now }
        ensures fails { IfErr result (λ e. (e ≡ ShellFault.NoMemory) ⊎ (e ≡ ShellFault.WrongDevice)) }
        ensures fit { OnOk result (IsFit checked.now.plan (map D.row_of devices.items) (map D.state_of devices.items)) }
        ensures wrong { IsErrOf result ShellFault.WrongDevice
            → ¬ (IsFit checked.now.plan (map D.row_of devices.items) (map D.state_of devices.items)) }
    {
        let names = PrintedPlan::new(alloc, checked.plan())?;
        let guesses = SwitchGuesses::new(alloc, checked.plan())?;
        let page = Page::new(alloc)?;
        let rig = Rig::new(alloc, checked, devices, board)?;
        Ok(LogPlayer {
            plan: names,
            guesses,
            rig,
            page,
            has_stopped: false,
        })
    }

    /// The moment of the alarm that is due next, in milliseconds. None if nothing is due at all.
    pub fn next_due(&self) -> Option<u64>
        ensures { result ≡ option_map (λ a. a.0) (next_alarm self.now.rig.machine) }
    {
        self.rig.next_due()
    }

    /// Plays the line that has this number, unless it is refused, and puts on the page what is printed
    /// for it.
    ///
    /// # Errors
    ///
    /// No line is played after one of them.
    ///
    /// - `Board`: the board has not taken a command. What comes before the line of this command is on
    ///   the page. Or an earlier line was not played to its end: nothing has changed then.
    /// - `Write`: the writer failed.
    pub fn play<W: Write>(
        &mut self,
        number: usize,
        line: &[u8],
        writer: &mut W,
    ) -> Result<Verdict, Stop>
        ensures plays { self.old.has_stopped ≡ false
            → PlaysLine self.old.plan number line.now self.old.rig self.new.rig
            (append_known (W.contents writer.old) self.old.page) (append_known (W.contents writer.new) self.new.page)
            result }
        ensures plan { self.new.plan ≡ self.old.plan }
        ensures going { OnOk result (self.new.has_stopped ≡ false) }
        ensures over { self.old.has_stopped ≡ true → (result ≡ Err Stop.Board) × (self.new ≡ self.old) }
    {
        if self.has_stopped {
            return Err(Stop::Board);
        }
        let answer = play_line(
            &self.plan,
            &self.guesses,
            &mut self.rig,
            number,
            line,
            &mut self.page,
            writer,
        );
        self.has_stopped = answer.is_err();
        answer
    }

    /// Puts on the page that the line of this number is refused, since the board has not taken a
    /// command. Fails only by the writer.
    pub fn refuse_for_board<W: Write>(
        &mut self,
        number: usize,
        writer: &mut W,
    ) -> Result<Verdict, ShellFault>
        ensures writes { OnOk result (Puts (W.contents writer.old) self.old.page (W.contents writer.new) self.new.page
            (refused_text number board_refusal)) }
        ensures verdict { IfOk result (λ v. v ≡ Verdict.Refused) }
        ensures fails { IfErr result (λ e. e ≡ ShellFault.Write) }
        ensures keeps { self.new ≡ with_page self.new.page self.old }
    {
        put_refused(
            number,
            LogRefusal::Step(StepFault::BoardFault),
            &mut self.page,
            writer,
        )?;
        Ok(Verdict::Refused)
    }

    /// Writes what is on the page, which is empty then.
    pub fn write_out<W: Write>(&mut self, writer: &mut W) -> Result<(), WriteFailed>
        ensures writes { OnOk result (Appends (W.contents writer.old) (W.contents writer.new) self.old.page) }
        ensures keeps { self.new ≡ with_page [] self.old }
    {
        self.page.write_out(writer)
    }

    /// Shuts the rig down, and writes which coils were turned off. Gives the board back. Fails only by
    /// the writer. What is on the page is lost.
    pub fn shut_down<W: Write>(self, writer: &mut W) -> Result<B, ShellFault>
        ensures ends { IfOk result (λ b. IsShutDown self.entry.plan self.entry.rig
            (board_view B.command_list B.fault_count B.answers b) (W.contents writer.old) (W.contents writer.new)) }
        ensures fails { IfErr result (λ e. e ≡ ShellFault.Write) }
    {
        let LogPlayer { plan, rig, .. } = self;
        let now = rig.now();
        let (board, report) = rig.shut_down();
        match write_off(plan.tables(), now, &report.off, writer) {
            Ok(()) => Ok(board),
            Err(_) => Err(ShellFault::Write),
        }
    }
}
