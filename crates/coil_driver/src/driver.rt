//! A board, and what was sent to it.

ghost use Rattle.std.specs.Prelude.{◌≡◌, ◌<◌, ◌++◌, ℕ, [], ◌∷◌, MatchResult, filter, is_some, length, map};
ghost use Rattle.std.specs.List.{All};
ghost use Rattle.plan_tables.specs.PlanView.{coil_numbers};
ghost use Rattle.coil_guard.specs.Coils.{after_disable};
ghost use Rattle.coil_guard.specs.SentCommands.{coil_of};
ghost use Rattle.coil_driver.specs.Board.{board_view};
ghost use Rattle.coil_driver.specs.ShutDown.{ArePutOff, is_faulted};
ghost use Rattle.coil_driver.specs.Driver.{IsSendable, HasSent, HasSentAlone, HasFaultedAt, HasNotSent, IsServed};
ghost use Rattle.coil_driver.specs.Driver.{HasPutOff, is_due_off, off_state};

use crate::report::ShutReport;
use arrayvec::ArrayVec;
use coil_guard::{Answer, Board, BoardFault, Coils, Command};
use plan_tables::{CoilId, Plan};
use std::marker::Model;
use written_machine::{Happening, Line};

/// A board for the coils of a plan, with a guard that is asked for just the commands that the board
/// has taken. Moments are milliseconds.
///
/// At the first command that the board does not take the driver is halted, and remembers the coil
/// of that command. No call takes memory. A driver that is dropped sends nothing.
#[derive(Drop)]
pub struct Driver<B: Board> {
    board: B,
    guard: Coils,
    faulted_coil: Option<CoilId>,
}

impl<B: Board> Model for Driver<B> {
    ghost use Rattle.coil_driver.specs.Board.{board_view};
    ghost use Rattle.coil_driver.specs.Driver.{DriverView};

    ghost Value = { DriverView };

    ghost view = { λ d. record {
      board = board_view B.command_list B.fault_count B.answers d.board;
      guard = d.guard;
      faulted_coil = d.faulted_coil;
    } };
}

impl<B: Board> Driver<B> {
    ghost use Rattle.std.specs.Prelude.{None};

    /// A driver of this board, to which it has sent nothing yet, with this guard of its coils. It is
    /// not halted.
    pub fn new(board: B, guard: Coils) -> Driver<B>
        ensures { result
            ≡ record {
              board = board_view B.command_list B.fault_count B.answers board;
              guard = guard;
              faulted_coil = None;
            } }
    {
        Driver {
            board,
            guard,
            faulted_coil: None,
        }
    }

    /// Whether `serve` has sent a command that the board has not taken.
    pub fn is_halted(&self) -> bool
        ensures { result ≡ is_some self.now.faulted_coil }
    {
        self.faulted_coil.is_some()
    }

    /// Ends the driver, and gives the board back as it is. Nothing is sent.
    pub fn into_board(self) -> B
        ensures { board_view B.command_list B.fault_count B.answers result ≡ self.board }
    {
        self.board
    }

    /// Sends the commands of these lines, in order, until the board does not take one. The other
    /// lines are passed over. The guard is asked for each command that was taken, for the owner and
    /// at the moment of its line. Each command has to be to a coil of the guard, and each line
    /// before 2^40 ms.
    ///
    /// It answers `None` if the board has taken all of them. Else it answers the place of the line
    /// whose command the board has not taken, counted from 0. Nothing more is sent then, and the
    /// driver is halted. It does not ask whether the driver was halted before.
    #[inline(always)]
    pub fn serve(&mut self, lines: &[Line]) -> Option<usize>
        requires { All (IsSendable (length self.old.guard)) lines.now }
        ensures serves { IsServed lines.now result self.old self.new }
        ensures coils { length self.new.guard ≡ length self.old.guard }
    {
        for (place, line) in lines.iter().enumerate() {
            match self.serve_line(line) {
                Ok(()) => {}
                Err(_) => return Some(place),
            }
        }
        None
    }

    /// Sends the command of a line, if it has one.
    #[inline(always)]
    fn serve_line(&mut self, line: &Line) -> Result<(), BoardFault>
        requires { IsSendable (length self.old.guard) line.now }
        ensures serves { MatchResult result (λ _. HasSent (line.now ∷ []) self.old self.new)
            (λ _. HasNotSent line.now self.old self.new) }
        ensures coils { length self.new.guard ≡ length self.old.guard }
    {
        let Happening::Coil(command) = line.happening else {
            return Ok(());
        };
        self.send(command)?;
        let _ = self.guard.ask(command, line.owner, line.moment);
        Ok(())
    }

    /// Sends a command. If the board does not take it, its coil is remembered.
    #[inline(never)]
    fn send(&mut self, command: Command) -> Result<(), BoardFault>
        ensures { MatchResult result (λ _. HasSentAlone command self.old self.new)
            (λ _. HasFaultedAt command self.old self.new) }
    {
        let answer = self.board.send(command);
        if answer.is_err() {
            self.faulted_coil = Some(coil_of(command));
        }
        answer
    }

    /// Sends a disable to each coil that is on at this moment, by the commands that the board has
    /// taken, and to the coil whose command it has not taken: in the order of their numbers, and
    /// also after a fault. The plan has to have as many coils as the guard.
    ///
    /// The report says which coils are turned off, and how many faults there were. The board has
    /// taken or refused these commands, and nothing else. The guard holds all coils for off then,
    /// whatever the board has taken, and the driver is as halted as before.
    pub fn put_off(&mut self, plan: &Plan, now: u64) -> ShutReport
        requires { length self.old.guard ≡ length plan.now.coils }
        ensures off { ArePutOff (filter (is_due_off now self.old) (coil_numbers plan.now)) self.old.board
            result.off.items result.faults self.new.board }
        ensures guard { self.new.guard ≡ map (off_state now) self.old.guard }
        ensures faulted_coil { self.new.faulted_coil ≡ self.old.faulted_coil }
    {
        let mut report = ShutReport {
            off: ArrayVec::new(),
            faults: 0,
        };
        for number in 0..plan.coil_count() {
            let coil = CoilId(number as u16);
            if self.takes_off(coil, now) {
                self.put_off_one(coil, &mut report);
            }
        }
        report
    }

    /// Whether a coil is to be turned off. The guard holds it for off then.
    fn takes_off(&mut self, coil: CoilId, now: u64) -> bool
        requires { coil.0 < length self.old.guard }
        ensures due { result ≡ is_due_off now self.old coil }
        ensures state { self.new ≡ record self.old { guard = after_disable coil now self.old.guard } }
        ensures coils { length self.new.guard ≡ length self.old.guard }
    {
        let on = match self.guard.disable(coil, now) {
            Answer::Sent(_) => true,
            Answer::Skipped => false,
        };
        on || is_faulted(self.faulted_coil, coil)
    }

    /// Sends a disable to a coil, and reports what became of it.
    fn put_off_one(&mut self, coil: CoilId, report: &mut ShutReport)
        requires off { length report.old.off.items < 256 }
        requires faults { report.old.faults < 256 }
        ensures put { HasPutOff coil
            self.old.board report.old.off.items report.old.faults report.new.off.items report.new.faults
            self.new.board }
        ensures rest { self.new ≡ record self.old { board = self.new.board } }
    {
        match self.board.send(Command::Disable { coil }) {
            Ok(()) => report.off.push(coil),
            Err(_) => report.faults += 1,
        }
    }
}

/// The coil of a command.
fn coil_of(command: Command) -> CoilId
    ensures { result ≡ coil_of command }
{
    match command {
        Command::Pulse { coil, .. } | Command::Enable { coil, .. } | Command::Disable { coil } => {
            coil
        }
    }
}

/// Whether it is the coil whose command was not taken.
fn is_faulted(fault_coil: Option<CoilId>, coil: CoilId) -> bool
    ensures { result ≡ is_faulted fault_coil coil }
{
    match fault_coil {
        None => false,
        Some(other) => coil.0 == other.0,
    }
}
