//! What ball devices are told about the rest of the machine.

ghost use Rattle.std.specs.Prelude.{◌≡◌, ◌<◌, IfSome, length};
ghost use Rattle.plan_tables.specs.Valid.{IsTargetThere};
ghost use Rattle.written_machine.specs.Machine.{device_at, first_away, is_device_away, tell_first, told_device};
ghost use Rattle.written_machine.specs.Devices.{HasDevices};
ghost use Rattle.machine_core.specs.Balls.{IsTellingThere};
ghost use Rattle.machine_core.specs.Core.{CanCall, IsWithin, after};

use crate::actions::Tells;
use crate::core_state::Core;
use crate::lists::call_by;
use device_objects::{Call, Device, DeviceState, Eject};
use plan_tables::{BallTarget, RowId, Telling};

/// The ball device that is to know it is told, if there is one.
pub(crate) fn tell<D: Device>(core: &mut Core<'_, D>, telling: Telling)
    requires there { IsTellingThere (length core.old.plan.rows) telling }
    requires calls { CanCall core.old }
    requires room { IsWithin core.old.room (tell_first core.old.plan telling core.old.machine) }
    ensures { core.new ≡ after (tell_first core.old.plan telling) core.old }
{
    if let Some(row) = told_device(core, telling) {
        call_by::<D, TellsNobody>(core, row, Call::Act(telling.act()));
    }
}

/// Which ball device is to know it: of a ball that has arrived the first whose ball is on its way
/// there, and of balls that are wanted the first trough.
fn told_device<D: Device>(core: &Core<'_, D>, telling: Telling) -> Option<RowId>
    requires telling { IsTellingThere (length core.now.plan.rows) telling }
    requires devices { HasDevices core.now.plan core.now.machine.devices }
    ensures tells { result ≡ told_device core.now.plan telling core.now.machine }
    ensures there { IfSome result (λ row. row.0 < length core.now.plan.rows) }
{
    match telling {
        Telling::Arrived(target) => first_away(core, target),
        Telling::Wanted(_) => core.plan().first_trough(),
    }
}

/// The first device whose ball is on its way to the target. It waits for the ball until its timeout,
/// and so it is due: if no device is due, none is looked at.
fn first_away<D: Device>(core: &Core<'_, D>, target: BallTarget) -> Option<RowId>
    requires target { IsTargetThere (length core.now.plan.rows) target }
    requires devices { HasDevices core.now.plan core.now.machine.devices }
    ensures first { result ≡ first_away core.now.plan target core.now.machine }
    ensures there { IfSome result (λ row. row.0 < length core.now.plan.rows) }
{
    if core.device_due().is_none() {
        return None;
    }
    let feeders = core.plan().feeders(target);
    for row in feeders {
        if has_ball_away(core, *row) {
            return Some(*row);
        }
    }
    None
}

/// Whether the device's ball is on its way. A state is large: only that of a device that is due is
/// looked at.
fn has_ball_away<D: Device>(core: &Core<'_, D>, row: RowId) -> bool
    requires row { row.0 < length core.now.plan.rows }
    requires devices { HasDevices core.now.plan core.now.machine.devices }
    ensures { result ≡ is_device_away (device_at core.now.machine row) }
{
    core.is_due(row) && is_away(&core.state(row))
}

/// Whether the ball that a device has ejected is on its way.
fn is_away(state: &DeviceState) -> bool
    ensures { result ≡ is_device_away state.now }
{
    match state {
        DeviceState::BallDevice(device) => match device.eject {
            Eject::Away(_) => true,
            Eject::Idle | Eject::Pulsing(_) => false,
        },
        _ => false,
    }
}

/// A device that was told something tells nobody: no list that it answers has such an action.
struct TellsNobody;

impl Tells for TellsNobody {
    ghost use Rattle.written_machine.specs.Machine.{tell_nobody};

    ghost tell = { λ plan. tell_nobody };

    fn tell<D: Device>(_core: &mut Core<'_, D>, _telling: Telling) {}
}
