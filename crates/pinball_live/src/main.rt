//! The program `pinball_live`: words, streams and the exit status. All else is in the libraries.
#![tactic(auto)]

use coil_guard::MemoryBoard;
use command_line::{AskFault, LiveAsk, live_command, program_words};
use config_checker::Checked;
use live_machine::{LineLink, LinkWriter, admits, run_live, tell_work};
use machine_folder::{Disk, folder_bundle};
use pinball_shell::{Failure, ShellFault, Verdict, load_bundle, status};
use row_devices::device_of;
use std::io::{self, BufWriter};
use std::process::ExitCode;
use std::rt::{Env, Files};

/// How many bytes of an answer are told at once.
const ANSWER_ROOM: usize = 65_536;

fn main(rt: HostRuntime) -> ExitCode {
    match read_ask(&rt) {
        Ok(ask) => {
            let answer = answer(&rt, &ask);
            if let Err(failure) = &answer {
                let _ = failure.write(&mut io::writer(&rt.stderr()));
            }
            ExitCode::from(status(&answer.map_err(|failure| failure.fault)))
        }
        Err(fault) => {
            let _ = fault.write(&mut io::writer(&rt.stderr()));
            ExitCode::from(fault.status())
        }
    }
}

/// What the words after the program's name ask for.
fn read_ask<R: Env + AllocGlobal>(rt: &R) -> Result<LiveAsk, AskFault> {
    live_command(rt.alloc(), program_words(rt)?)
}

/// Loads the configuration of the folder, and does what is asked for.
fn answer<R: Files + Input + Print + AllocGlobal>(
    rt: &R,
    ask: &LiveAsk,
) -> Result<Verdict, Failure> {
    let bundle = folder_bundle(rt.alloc(), &Disk(rt), ask.folder())?;
    match load_bundle(rt.alloc(), &bundle, &mut io::writer(rt))? {
        Some(checked) => serve(rt, ask, &checked).map_err(Failure::from),
        None => Ok(Verdict::Refused),
    }
}

/// Tells the work bound, or runs the machine unless this bound is too much.
fn serve<R: Input + Print + AllocGlobal>(
    rt: &R,
    ask: &LiveAsk,
    checked: &Checked,
) -> Result<Verdict, ShellFault> {
    match ask {
        LiveAsk::Work { .. } => tell_work(rt.alloc(), checked, &mut io::writer(rt)),
        LiveAsk::Run { any_work, .. } => {
            if *any_work || admits(rt.alloc(), checked, &mut io::writer(rt))? {
                run(rt, checked)
            } else {
                Ok(Verdict::Refused)
            }
        }
    }
}

/// Runs the machine of a plan, with a device for each row. Its board is in memory.
fn run<R: Input + Print + AllocGlobal>(rt: &R, checked: &Checked) -> Result<Verdict, ShellFault> {
    let mut devices = Vec::new(rt.alloc());
    for row in checked.plan().rows() {
        devices.extend(device_of(row))?;
    }
    let link = LineLink::new(rt.alloc(), rt.reader(), io::writer(rt))?;
    let wire = BufWriter::with_capacity(rt.alloc(), ANSWER_ROOM, LinkWriter { link });
    let mut wire = wire.map_err(|_| ShellFault::NoMemory)?;
    let board = MemoryBoard::new(rt.alloc())?;
    run_live(rt.alloc(), checked, devices, board, &mut wire)
}
