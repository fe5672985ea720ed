//! What is wrong with the settings of an entry, in the order in which the settings are written.

ghost use Rattle.std.specs.Prelude.{◌≡◌, ◌==◌, position, IfOk, OnOk};
ghost use Rattle.row_faults.specs.AsWritten.{ordered_by, written_before};
ghost use Rattle.row_faults.specs.Collected.{Gains};
ghost use Rattle.row_faults.specs.Named.{named_faults};
ghost use Rattle.row_faults.specs.FaultsOf.{faults_in_order, faults_of_parts};

use crate::ball_faults::{add_named_coil, add_switches, add_target};
use crate::coil_faults::add_hold_coil;
use crate::collector::Faults;
use crate::shot_faults::{add_named_switch, add_profile};
use mpf_config::{Name, NameAt};
use std::alloc::{AllocError, Global};

/// What a setting of an entry names.
#[derive(Clone, Copy)]
pub(crate) enum NamedThing<'a> {
    /// A coil, if it names one.
    Coil(Option<NameAt<'a>>),
    /// The coil that an entry at this line holds, if it names one.
    HoldCoil(u32, Option<NameAt<'a>>),
    /// A switch, if it names one.
    Switch(Option<NameAt<'a>>),
    /// Switches.
    Switches(&'a [Name]),
    /// The profile of a shot.
    Profile(NameAt<'a>),
    /// The place to which a ball device ejects its balls.
    Target(NameAt<'a>),
}

/// How many settings are written before the one at this place, if it is written.
fn place_in(order: &[usize], place: usize) -> Option<usize>
    ensures { result ≡ position (λ p. p == place) order.now }
{
    order.iter().position(|p| *p == place)
}

/// How many settings are written before the one at this place; if it is not written, how many are
/// written.
fn written_before(order: &[usize], place: usize) -> usize
    ensures { result ≡ written_before order.now place }
{
    place_in(order, place).unwrap_or(order.len())
}

/// What settings have, each with the place of the setting, in the order in which the settings are
/// written; what is not written comes last.
pub(crate) fn as_written<T: Copy>(
    alloc: Global,
    order: &[usize],
    parts: &[(usize, T)],
) -> Result<Vec<(usize, T)>, AllocError>
    ensures { IfOk result (λ order_written. order_written.items
        ≡ ordered_by (λ part. written_before order.now part.0) parts.now) }
{
    let mut order_written = Vec::from_slice(alloc, parts)?;
    order_written.sort_by_key(|part| written_before(order, part.0))?;
    Ok(order_written)
}

/// Adds what is wrong with the names that settings have, in the order in which the settings are
/// written. If none is written, nothing has to be put in order.
pub(crate) fn add_as_written(
    faults: &mut Faults<'_, '_>,
    order: &[usize],
    parts: &[(usize, NamedThing<'_>)],
) -> Result<(), AllocError>
    ensures { OnOk result (Gains faults.old faults.new (faults_in_order faults.old order.now parts.now)) }
{
    if order.is_empty() {
        add_parts(faults, parts)?;
        return Ok(());
    }
    let order_written = as_written(faults.alloc, order, parts)?;
    add_parts(faults, &order_written)?;
    Ok(())
}

fn add_parts(
    faults: &mut Faults<'_, '_>,
    parts: &[(usize, NamedThing<'_>)],
) -> Result<(), AllocError>
    ensures { OnOk result (Gains faults.old faults.new (faults_of_parts faults.old parts.now)) }
{
    for part in parts {
        add_named(faults, part.1)?;
    }
    Ok(())
}

/// Adds what is wrong with what a setting names.
fn add_named(faults: &mut Faults<'_, '_>, thing: NamedThing<'_>) -> Result<(), AllocError>
    ensures { OnOk result (Gains faults.old faults.new (named_faults faults.old.rows faults.old.text thing.entry)) }
{
    match thing {
        NamedThing::Coil(coil) => add_named_coil(faults, coil),
        NamedThing::HoldCoil(line, coil) => add_hold_coil(faults, line, coil),
        NamedThing::Switch(switch) => add_named_switch(faults, switch),
        NamedThing::Switches(switches) => add_switches(faults, switches),
        NamedThing::Profile(profile) => add_profile(faults, profile),
        NamedThing::Target(target) => add_target(faults, target),
    }
}
