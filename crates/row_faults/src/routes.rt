//! What is wrong with the ways of balls.

ghost use Rattle.std.specs.Prelude.{◌≡◌, ◌||◌, not, map, IfOk, OnOk};
ghost use Rattle.mpf_sections.specs.View.{ball_device_view};
ghost use Rattle.machine_definitions.specs.Definitions.{ball_devices_of};
ghost use Rattle.machine_definitions.specs.Found.{is_found, section_rows, as_ball_devices};
ghost use Rattle.row_faults.specs.Collected.{Gains};
ghost use Rattle.row_faults.specs.Routes.{leads_to_playfield, lacks_coil, all_taken, is_one_taken};
ghost use Rattle.row_faults.specs.BallFaults.{route_faults};
ghost use Rattle.row_faults.specs.View.{devices_view};
ghost use Rattle.row_faults.specs.FaultsOf.{GainsDeviceList, faults_of_routes, texts_of};

use crate::collector::{Faults, add_if, at};
use crate::fault::RowFaultKind;
use crate::targets::leads_of;
use indexmap::IndexSet;
use machine_definitions::by_name::Names;
use mpf_config::{Entry, Name, Section};
use mpf_sections::{BallDeviceEntry, as_ball_device};
use mpf_tables::tables::BALL_DEVICES_NAME;
use std::alloc::{AllocError, Global};

/// Names of ball switches, which lie where they are written.
type SwitchNames<'a> = Names<'a>;

/// Adds the faults of the ways of balls through the ball devices of these sections.
pub(crate) fn add_route_faults(
    faults: &mut Faults<'_, '_>,
    sections: &[Section],
) -> Result<(), AllocError>
    ensures { OnOk result (Gains faults.old faults.new (faults_of_routes faults.old sections.now)) }
{
    let devices = ball_devices_of(faults.alloc, sections)?;
    let leads = leads_of(faults.alloc, faults.definitions.config().hashing, &devices)?;
    add_faults(faults, &devices, &leads)
}

/// The ball devices of sections, in plan order.
fn ball_devices_of<'a>(
    alloc: Global,
    sections: &'a [Section],
) -> Result<Vec<BallDeviceEntry<'a>>, AllocError>
    ensures { IfOk result (λ devices. devices_view devices.items ≡ ball_devices_of (section_rows sections.now)) }
{
    let mut devices = Vec::new(alloc);
    for section in sections {
        add_entries(&mut devices, section.entries_of(BALL_DEVICES_NAME))?;
    }
    Ok(devices)
}

fn add_entries<'a>(
    devices: &mut Vec<BallDeviceEntry<'a>>,
    entries: &'a [Entry],
) -> Result<(), AllocError>
    ensures { OnOk result (GainsDeviceList devices.old devices.new (as_ball_devices entries.now)) }
{
    for entry in entries {
        devices.push(as_ball_device(entry))?;
    }
    Ok(())
}

/// Adds the faults of all these ball devices, where `leads` says for each whether its balls come to
/// the playfield.
fn add_faults(
    faults: &mut Faults<'_, '_>,
    devices: &[BallDeviceEntry<'_>],
    leads: &[bool],
) -> Result<(), AllocError>
    requires { leads.now ≡ map (leads_to_playfield (devices_view devices.now)) (devices_view devices.now) }
    ensures { OnOk result (Gains faults.old faults.new (route_faults faults.old.text (devices_view devices.now))) }
{
    let mut names_before = IndexSet::with_hasher(faults.alloc, faults.definitions.config().hashing);
    for (number, device) in devices.iter().enumerate() {
        let again = take_switches(&mut names_before, device.switches)?;
        let wrong = is_wrong(leads[number], again, *device);
        let name = at(device.name);
        add_if(faults, wrong, RowFaultKind::BallRoute, name)?;
    }
    Ok(())
}

/// Whether something is wrong with the way of balls through a ball device, whose balls come to the
/// playfield or not, and of which a ball switch was taken or not.
fn is_wrong(leads: bool, again: bool, device: BallDeviceEntry<'_>) -> bool
    ensures { result ≡ (not leads || again || lacks_coil (ball_device_view device.entry)) }
{
    !leads || again || lacks_coil(device)
}

/// Takes the ball switches of a ball device, and says whether one was taken, or stands twice among
/// them. If memory runs out, some may be taken.
fn take_switches<'a>(
    names_before: &mut SwitchNames<'a>,
    switches: &'a [Name],
) -> Result<bool, AllocError>
    ensures again { IfOk result (λ again. again ≡ is_one_taken (texts_of switches.now) (is_found names_before.old)) }
    ensures takes { IfOk result (λ _. is_found names_before.new
        ≡ all_taken (texts_of switches.now) (is_found names_before.old)) }
{
    let mut again = false;
    for switch in switches {
        let fresh = names_before.insert(&switch.text)?;
        again = again || !fresh;
    }
    Ok(again)
}

/// Whether a ball device lacks a coil that ejects its balls.
fn lacks_coil(device: BallDeviceEntry<'_>) -> bool
    ensures { result ≡ lacks_coil (ball_device_view device.entry) }
{
    device.eject_coil.is_none() && (!device.ejects.mechanical || device.is_trough())
}
