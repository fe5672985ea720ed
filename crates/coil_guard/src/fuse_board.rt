//! A board that faults, for tests.

use crate::board::{Board, BoardFault};
use crate::command::Command;
use arrayvec::ArrayVec;
use std::cell::RefCell;
use std::marker::Model;
use std::rc::Rc;

/// The commands that a `FuseBoard` took, which its test shares with it.
pub type SharedCommands = Rc<RefCell<ArrayVec<Command, 1024>>>;

/// A board for tests that faults at one command, or from one command on. It reports its answers to the
/// commands to come, and no list. It adds each command that it takes to a list that a test shares.
#[derive(Drop)]
pub struct FuseBoard {
    /// How many commands come until the first fault, and with it; 0 if it is past.
    countdown: u64,
    onwards: bool,
    faults: u64,
    taken: SharedCommands,
}

impl Model for FuseBoard {
    ghost use Rattle.coil_guard.specs.Boards.{FuseView};
    ghost use Rattle.coil_guard.specs.GuardState.{IsFuse};

    ghost Value = { FuseView };

    ghost view = { λ b. record { countdown = b.countdown; onwards = b.onwards; faults = b.faults } };

    ghost invariant = { λ b. IsFuse b.countdown b.onwards b.faults };
}

impl FuseBoard {
    ghost use Rattle.std.specs.Prelude.{◌≡◌};
    ghost use Rattle.coil_guard.specs.Boards.{new_fuse, is_fault_next};

    /// A board that faults at its `k`-th command alone, or with `onwards` from it on. The first
    /// command is the one with `k` = 1. With `k` = 0 it faults at none, or with `onwards` at all.
    ///
    /// It adds each command that it takes to `taken`, as long as there is room and nobody borrows
    /// it. It takes no memory.
    pub fn new(k: u64, onwards: bool, taken: SharedCommands) -> FuseBoard
        ensures { result ≡ new_fuse k onwards }
    {
        FuseBoard {
            countdown: k,
            onwards,
            faults: 0,
            taken,
        }
    }

    /// Whether the next command is a fault.
    fn is_fault_next(&self) -> bool
        ensures { result ≡ is_fault_next self.now }
    {
        self.countdown == 1 || (self.onwards && self.countdown == 0)
    }
}

impl Board for FuseBoard {
    ghost use Rattle.std.specs.Prelude.{◌≡◌, ◌↔◌, true, None, is_ok, IsErr, OnOk};
    ghost use Rattle.coil_guard.specs.Boards.{HasFaulted, IsToldAfter, IsAnswered, is_fault_next, after_sending};
    ghost use Rattle.coil_guard.specs.Boards.{fuse_answers};

    ghost fault_count = { λ b. b.faults };

    ghost command_list = { λ _. None };

    ghost answers = { fuse_answers };

    fn send(&mut self, command: Command) -> Result<(), BoardFault>
        ensures fault { IsErr result ↔ HasFaulted self.old.faults self.new.faults }
        ensures count { OnOk result (self.new.faults ≡ self.old.faults) }
        ensures list { IsToldAfter command result None None }
        ensures answer { IsAnswered (is_ok result) (fuse_answers self.old) (fuse_answers self.new) }
        ensures next { IsErr result ↔ (is_fault_next self.old ≡ true) }
        ensures state { self.new ≡ after_sending self.old }
    {
        let faults = self.is_fault_next();
        self.countdown = self.countdown.saturating_sub(1);
        if faults {
            self.faults = self.faults.saturating_add(1);
            return Err(BoardFault);
        }
        if let Ok(mut taken) = self.taken.try_borrow_mut() {
            let _ = taken.try_push(command);
        }
        Ok(())
    }

    fn faults(&self) -> u64 {
        self.faults
    }
}
