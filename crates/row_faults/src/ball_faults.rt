//! What is wrong with ball devices.

ghost use Rattle.std.specs.Prelude.{◌≡◌, OnOk};
ghost use Rattle.row_faults.specs.BallFaults.{is_place};
ghost use Rattle.row_faults.specs.Collected.{Gains};
ghost use Rattle.row_faults.specs.FaultsOf.{faults_of_ball_device, faults_of_ball_devices, faults_of_eject_coil};
ghost use Rattle.row_faults.specs.FaultsOf.{faults_of_switch_names, faults_of_target};

use crate::as_written::{NamedThing, add_as_written};
use crate::coil_faults::{add_coil_name, add_switch_name};
use crate::collector::{Faults, add_if, at};
use crate::fault::RowFaultKind;
use machine_definitions::Definitions;
use mpf_config::{Name, NameAt, Section};
use mpf_sections::balls::{BALL_SWITCHES, EJECT_COIL, EJECT_TARGETS};
use mpf_sections::{BallDeviceEntry, as_ball_device};
use mpf_tables::tables::{BALL_DEVICES_NAME, PLAYFIELD};
use std::alloc::AllocError;

/// Adds the faults of the names in the ball devices of a section.
#[tactic(auto, unfolding(mpf_sections::specs::TypedBalls::ball_devices_in))]
pub(crate) fn add_ball_devices(
    faults: &mut Faults<'_, '_>,
    section: &Section,
) -> Result<(), AllocError>
    ensures { OnOk result (Gains faults.old faults.new (faults_of_ball_devices faults.old section.now)) }
{
    let entries = section.entries_of(BALL_DEVICES_NAME);
    for entry in entries {
        add_ball_device(faults, as_ball_device(entry))?;
    }
    Ok(())
}

/// Adds the faults of the names in a ball device.
fn add_ball_device(
    faults: &mut Faults<'_, '_>,
    device: BallDeviceEntry<'_>,
) -> Result<(), AllocError>
    ensures { OnOk result (Gains faults.old faults.new (faults_of_ball_device faults.old device.entry)) }
{
    let parts = [
        (BALL_SWITCHES, NamedThing::Switches(device.switches)),
        (EJECT_COIL, NamedThing::Coil(device.eject_coil)),
        (EJECT_TARGETS, NamedThing::Target(device.target)),
    ];
    add_as_written(faults, device.order, &parts)
}

/// Adds a fault for each of these switches that no entry defines.
pub(crate) fn add_switches(faults: &mut Faults<'_, '_>, switches: &[Name]) -> Result<(), AllocError>
    ensures { OnOk result (Gains faults.old faults.new (faults_of_switch_names faults.old switches.now)) }
{
    for switch in switches {
        add_switch_name(faults, at(switch))?;
    }
    Ok(())
}

/// Adds a fault if a setting names a coil that no entry defines.
pub(crate) fn add_named_coil(
    faults: &mut Faults<'_, '_>,
    coil: Option<NameAt<'_>>,
) -> Result<(), AllocError>
    ensures { OnOk result (Gains faults.old faults.new (faults_of_eject_coil faults.old coil.entry)) }
{
    match coil {
        Some(name) => add_coil_name(faults, name),
        None => Ok(()),
    }
}

/// Adds a fault if balls cannot be ejected to a place of this name.
pub(crate) fn add_target(faults: &mut Faults<'_, '_>, target: NameAt<'_>) -> Result<(), AllocError>
    ensures { OnOk result (Gains faults.old faults.new (faults_of_target faults.old target.entry)) }
{
    let unknown = !is_place(faults.definitions, target.text);
    add_if(faults, unknown, RowFaultKind::Name, target)
}

/// Whether balls can be ejected to a place of this name.
fn is_place(definitions: &Definitions<'_>, name: &[u8]) -> bool
    ensures { result ≡ is_place definitions.now.machine name.now }
{
    name == PLAYFIELD || definitions.ball_device(name).is_some()
}
