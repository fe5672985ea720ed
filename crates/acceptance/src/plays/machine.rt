//! Machines with a device for each row of the plan, on boards that take each command and on boards that fault.

use crate::plays::live::play_live;
use arrayvec::ArrayVec;
use coil_guard::{Board, FuseBoard, MemoryBoard, SharedCommands};
use config_checker::Checked;
use pinball_shell::{ShellFault, Verdict, play_text};
use plan_tables::DeviceRow;
use row_devices::{RowDevice, device_of};
use std::alloc::Global;
use std::cell::RefCell;
use std::rc::Rc;
use worked_rows::{Pen, Sink, Source};

/// Adds what is answered to the play of a log, which may be live, on a board that a text names as `fault 2` or
/// `faults 2`, or on one that takes each command.
pub(crate) fn play_log(
    pen: &mut Pen,
    checked: &Checked,
    (board, is_live): (&str, bool),
    log: &mut Source<'_>,
    sink: &mut Sink,
) {
    let devices = devices_of(pen, checked.plan().rows());
    match board.trim_ascii().split_once(' ') {
        None => play(pen, checked, devices, is_live, log, sink),
        Some((word, number)) => {
            let first = number.parse::<u64>().unwrap_or(0);
            match fuse_board(pen.alloc, first, word == "faults") {
                Some((board, taken)) => {
                    let answer = answer(pen.alloc, checked, devices, board, is_live, log, sink);
                    add_answer(pen, answer);
                    add_count(pen, &taken);
                }
                None => pen.is_lost = true,
            }
        }
    }
}

/// A device for each row. If memory runs out, some are missing, and what is written is lost.
fn devices_of(pen: &mut Pen, rows: &[DeviceRow]) -> Vec<RowDevice> {
    let mut devices = Vec::new(pen.alloc);
    for row in rows {
        if let Some(device) = device_of(row) {
            pen.is_lost |= devices.push(device).is_err();
        }
    }
    devices
}

/// Plays a log on a board in memory.
fn play(
    pen: &mut Pen,
    checked: &Checked,
    devices: Vec<RowDevice>,
    is_live: bool,
    log: &mut Source<'_>,
    sink: &mut Sink,
) {
    match MemoryBoard::new(pen.alloc) {
        Ok(board) => {
            let answer = answer(pen.alloc, checked, devices, board, is_live, log, sink);
            add_answer(pen, answer);
        }
        Err(_) => pen.is_lost = true,
    }
}

/// What is answered to the play of a log, which may be live.
fn answer<B: Board>(
    alloc: Global,
    checked: &Checked,
    devices: Vec<RowDevice>,
    board: B,
    is_live: bool,
    log: &mut Source<'_>,
    sink: &mut Sink,
) -> Result<Verdict, ShellFault> {
    if is_live {
        play_live(alloc, checked, devices, board, log, sink)
    } else {
        play_text(alloc, checked, devices, board, log, sink)
    }
}

/// A board that faults at this command alone, or from it on, and the list of what it takes.
fn fuse_board(alloc: Global, first: u64, onwards: bool) -> Option<(FuseBoard, SharedCommands)> {
    let taken: SharedCommands = Rc::new(alloc, RefCell::new(ArrayVec::new())).ok()?;
    let board = FuseBoard::new(first, onwards, taken.clone().ok()?);
    Some((board, taken))
}

fn add_answer(pen: &mut Pen, answer: Result<Verdict, ShellFault>) {
    match answer {
        Ok(verdict) => pen.shown(verdict),
        Err(fault) => pen.put(fault.name()),
    }
}

fn add_count(pen: &mut Pen, taken: &SharedCommands) {
    pen.put(" ");
    match taken.try_borrow() {
        Ok(commands) => pen.value(commands.len()),
        Err(_) => pen.put("borrowed"),
    }
}
