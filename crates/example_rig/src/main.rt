//! An example of a program of your own. It runs the machine in a folder, on a board that is defined here. While the
//! machine runs, it exchanges a device for one that is defined here. docs/embedding.md walks through it.
#![tactic(auto)]

mod counted_autofire;
mod wire_board;

use anyhow::{Result, bail};
use coil_guard::Board;
use config_checker::Checked;
use counted_autofire::CountedAutofire;
use device_objects::{AutofireState, Device, DeviceState};
use machine_folder::{Disk, folder_bundle};
use pin_rig::{Input, Refusal, Rig, ShutReport, StepFault};
use pinball_shell::load_bundle;
use plan_tables::Plan;
use row_devices::device_of;
use std::alloc::Global;
use std::cell::Cell;
use std::rc::Rc;
use std::{env, io};
use wire_board::WireBoard;

/// A change of a switch: its moment in milliseconds, the switch, and whether it becomes active.
type TimedChange = (u64, &'static str, bool);

/// What comes before the exchange.
const BEFORE: [TimedChange; 2] = [(1_000, "s_start", true), (1_500, "s_start", false)];

/// What comes after it.
const AFTER: [TimedChange; 2] = [(2_000, "s_sling", true), (3_000, "s_ramp", true)];

fn main(rt: HostRuntime) -> Result<()> {
    let folder = env::args(&rt)?.nth(1);
    let bundle = folder_bundle(rt.alloc(), &Disk(&rt), folder.as_deref().unwrap_or("."));
    let bundle = bundle.map_err(|failure| failure.fault)?;
    match load_bundle(rt.alloc(), &bundle, &mut io::writer(&rt))? {
        Some(checked) => run(&rt, &checked),
        None => bail!("the configuration is refused"),
    }
}

/// Runs the machine of a configuration on a board that sends frames to standard output. The devices
/// are boxes, so that those of the libraries and that of this program may be in one rig.
fn run<R: Print + AllocGlobal>(rt: &R, checked: &Checked) -> Result<()> {
    let rows = checked.plan().rows();
    let mut devices: Vec<Box<dyn Device>> = Vec::new(rt.alloc());
    for row in rows {
        if let Some(device) = device_of(row) {
            devices.push(Box::new(rt.alloc(), device)?)?;
        }
    }
    // The first row is that of the slingshot, which is enabled when its device is exchanged.
    let row = rows.first().ok_or(Refusal::NoSuchRow)?;
    let state = DeviceState::Autofire(AutofireState { enabled: true });
    let shots = Rc::new(rt.alloc(), Cell::new(0))?;
    let spare = CountedAutofire::resume(row, &state, shots.clone()?).ok_or(Refusal::WrongRow)?;
    let spare: Box<dyn Device> = Box::new(rt.alloc(), spare)?;
    let board = WireBoard::new(io::writer(rt));
    let (board, report) = drive(rt.alloc(), checked, devices, board, spare)?;
    let count = board.commands().map_or(0, |count| count.len());
    let (faults, off, shots) = (board.faults(), report.off.len(), shots.get());
    println!(rt; "count {count}, faults {faults}, off {off}, shots {shots}")?;
    Ok(())
}

/// Runs a machine to its end, and puts a spare device into it meanwhile. Gives the board back, and what
/// was turned off at the end. If this fails, the rig is dropped, which turns off all coils too.
fn drive<D: Device, B: Board>(
    alloc: Global,
    checked: &Checked,
    devices: Vec<D>,
    board: B,
    spare: D,
) -> Result<(B, ShutReport)> {
    let mut rig = Rig::new(alloc, checked, devices, board)?;
    play(checked.plan(), &mut rig, &BEFORE)?;
    exchange(&mut rig, spare)?;
    play(checked.plan(), &mut rig, &AFTER)?;
    Ok(rig.shut_down())
}

/// Plays changes of switches, each after the alarms that are due by its moment.
fn play<D: Device, B: Board>(
    plan: &Plan,
    rig: &mut Rig<'_, D, B>,
    changes: &[TimedChange],
) -> Result<(), StepFault> {
    for &(at, name, level) in changes {
        let switch = plan.find_switch(name.as_bytes());
        let switch = switch.ok_or(StepFault::NoSuchSwitch)?;
        take_alarms(rig, at)?;
        take(rig, Input::Change { at, switch, level })?;
    }
    Ok(())
}

/// Takes the alarms that are due by a moment, but no more than 1,000: others are waiting too.
fn take_alarms<D: Device, B: Board>(rig: &mut Rig<'_, D, B>, at: u64) -> Result<(), StepFault> {
    for _ in 0..1_000u32 {
        match rig.next_due() {
            Some(due) if due <= at => take(rig, Input::Alarm)?,
            _ => return Ok(()),
        }
    }
    Ok(())
}

/// Takes one input. Its lines are left out here: the board has their commands.
fn take<D: Device, B: Board>(rig: &mut Rig<'_, D, B>, input: Input) -> Result<(), StepFault> {
    rig.step(input)?;
    Ok(())
}

/// Puts a device into the machine. The one that was there has stopped, and is dropped.
fn exchange<D: Device, B: Board>(rig: &mut Rig<'_, D, B>, device: D) -> Result<(), Refusal> {
    match rig.exchange(device.row().number, device) {
        Ok(_stopped) => Ok(()),
        Err((refusal, _device)) => Err(refusal),
    }
}
