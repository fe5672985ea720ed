//! The program `pinball`: words, files and the exit status. All else is in the libraries.
#![tactic(auto)]

use coil_guard::MemoryBoard;
use command_line::{Ask, AskFault, command, program_words};
use config_checker::Checked;
use machine_folder::{Disk, folder_bundle};
use mpf_config::MACHINE_NAME;
use pinball_shell::{
    BUNDLE_LIMIT, Failure, ShellFault, Verdict, check_bundle, load_bundle, play_text, read_all,
    status, verify_bundle,
};
use row_devices::device_of;
use std::alloc::Global;
use std::fs;
use std::io::{self, BufWriter, Read, Write};
use std::process::ExitCode;
use std::rt::{Env, Files};

/// How many bytes of output are written at once.
const OUTPUT_ROOM: usize = 65_536;
/// What is said besides the failure, if the text of the machine in DIR cannot be read.
const HINT: &str =
    "hint: DIR is a folder with config/config.yaml in it. Without DIR, standard input is read.";

fn main(rt: HostRuntime) -> ExitCode {
    match read_ask(&rt) {
        Ok(ask) => {
            let answer = answer(&rt, &ask);
            if let Err(failure) = &answer {
                let _ = failure.write(&mut io::writer(&rt.stderr()));
                if is_of_machine_text(failure, folder_of(&ask)) {
                    let _ = eprintln!(&rt; "{HINT}");
                }
            }
            ExitCode::from(status(&answer.map_err(|failure| failure.fault)))
        }
        Err(fault) => {
            let _ = fault.write(&mut io::writer(&rt.stderr()));
            ExitCode::from(fault.status())
        }
    }
}

/// What the words after the program's name ask for.
fn read_ask<R: Env + AllocGlobal>(rt: &R) -> Result<Ask, AskFault> {
    command(rt.alloc(), program_words(rt)?)
}

/// The folder of the configuration, if one is given.
fn folder_of(ask: &Ask) -> Option<&str> {
    let folder = match ask {
        Ask::Check { folder } => folder,
        Ask::Verify { folder, .. } => folder,
        Ask::Play { folder, .. } => folder,
    };
    match folder {
        Some(folder) => Some(folder.as_str()),
        None => None,
    }
}

/// Whether the text of the machine in this folder could not be read.
fn is_of_machine_text(failure: &Failure, folder: Option<&str>) -> bool {
    match name_of_file(failure, folder) {
        Some(name) => failure.fault == ShellFault::Read && name == MACHINE_NAME,
        None => false,
    }
}

/// The name of the text that is at fault, if that is a file of this folder.
fn name_of_file<'a>(failure: &'a Failure, folder: Option<&str>) -> Option<&'a [u8]> {
    let path = failure.file.as_ref()?.as_bytes();
    path.strip_prefix(folder?.as_bytes())?.strip_prefix(b"/")
}

/// Does what is asked. Output is buffered. It has been written out if this answers a verdict.
fn answer<R: Files + Input + Print + AllocGlobal>(rt: &R, ask: &Ask) -> Result<Verdict, Failure> {
    let Ok(mut writer) = BufWriter::with_capacity(rt.alloc(), OUTPUT_ROOM, io::writer(rt)) else {
        return Err(Failure::from(ShellFault::NoMemory));
    };
    let bundle = bundle_of(rt, folder_of(ask))?;
    let verdict = match ask {
        Ask::Check { .. } => check_bundle(rt.alloc(), &bundle, &mut writer)?,
        Ask::Verify { certificate, .. } => verify(rt, certificate.as_str(), &bundle, &mut writer)?,
        Ask::Play { log, .. } => play(rt, log.as_str(), &bundle, &mut writer)?,
    };
    match writer.flush() {
        Ok(()) => Ok(verdict),
        Err(_) => Err(Failure::from(ShellFault::Write)),
    }
}

/// Verifies the certificate of a file on the bundle. The bundle has been read before the file is
/// opened: if standard input is closed, the file takes its place.
fn verify<R: Files + AllocGlobal, W: Write>(
    rt: &R,
    path: &str,
    bundle: &[u8],
    writer: &mut W,
) -> Result<Verdict, Failure> {
    let path_text = String::from_str(rt.alloc(), path)?;
    let Ok(mut certificate) = fs::open(rt, path) else {
        return Err(Failure::at(ShellFault::Read, path_text));
    };
    let answer = verify_bundle(rt.alloc(), bundle, &mut certificate, writer);
    answer.map_err(|fault| Failure::at(fault, path_text))
}

/// Loads the bundle, and plays the log only if it is accepted.
fn play<R: Files + AllocGlobal, W: Write>(
    rt: &R,
    path: &str,
    bundle: &[u8],
    writer: &mut W,
) -> Result<Verdict, Failure> {
    let path_text = String::from_str(rt.alloc(), path)?;
    match load_bundle(rt.alloc(), bundle, writer)? {
        Some(checked) => {
            play_file(rt, path, &checked, writer).map_err(|fault| Failure::at(fault, path_text))
        }
        None => Ok(Verdict::Refused),
    }
}

/// Plays the log of a file.
fn play_file<R: Files + AllocGlobal, W: Write>(
    rt: &R,
    path: &str,
    checked: &Checked,
    writer: &mut W,
) -> Result<Verdict, ShellFault> {
    match fs::open(rt, path) {
        Ok(mut log) => play_log(rt.alloc(), checked, &mut log, writer),
        Err(_) => Err(ShellFault::Read),
    }
}

/// Plays the log on a machine whose devices are made here, one for each row of the plan. Its board is
/// in memory.
fn play_log<L: Read, W: Write>(
    alloc: Global,
    checked: &Checked,
    log: &mut L,
    writer: &mut W,
) -> Result<Verdict, ShellFault> {
    let board = MemoryBoard::new(alloc)?;
    let mut devices = Vec::new(alloc);
    for row in checked.plan().rows() {
        devices.extend(device_of(row))?;
    }
    play_text(alloc, checked, devices, board, log, writer)
}

/// The bundle of the configuration in this folder; or the one on standard input.
fn bundle_of<R: Files + Input + AllocGlobal>(
    rt: &R,
    folder: Option<&str>,
) -> Result<Vec<u8>, Failure> {
    match folder {
        Some(folder) => folder_bundle(rt.alloc(), &Disk(rt), folder),
        None => Ok(read_all(rt.alloc(), &mut rt.reader(), BUNDLE_LIMIT)?),
    }
}
