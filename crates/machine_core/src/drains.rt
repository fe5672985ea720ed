//! What is done when a ball has drained.

ghost use Rattle.std.specs.Prelude.{◌≡◌, ◌<◌, ◌&&◌, IfSome, length};
ghost use Rattle.plan_tables.specs.PlanView.{is_save, multiball_rows, row_at};
ghost use Rattle.plan_tables.specs.Valid.{HasGame};
ghost use Rattle.plan_tables.specs.declared.devices.Act.TheVariants.{End};
ghost use Rattle.device_objects.specs.declared.device.Call.TheVariants as calls;
ghost use Rattle.written_machine.specs.Machine.{all_do, call_device, device_at, end_multiballs, first_active_save};
ghost use Rattle.written_machine.specs.Machine.{is_active_save};
ghost use Rattle.written_machine.specs.Devices.{HasDevices};
ghost use Rattle.machine_core.specs.Core.{CanCall, IsWithin, after};
ghost use Rattle.machine_core.specs.Balls.{drain_now};

use crate::calls::call_device;
use crate::core_state::Core;
use crate::game_steps::step_game;
use device_objects::{Call, Device, DeviceState};
use plan_tables::{Act, GameEvent, RowId};

/// A ball has drained. A ball save saves it, if one is active. Otherwise one ball less is in play,
/// and multiballs may end.
pub(crate) fn drain_ball<D: Device>(core: &mut Core<'_, D>)
    requires game { HasGame core.old.plan }
    requires calls { CanCall core.old }
    requires room { IsWithin core.old.room (drain_now core.old.plan core.old.machine) }
    ensures { core.new ≡ after (drain_now core.old.plan) core.old }
{
    match first_active_save(core) {
        Some(row) => call_device(core, row, Call::Act(Act::Save)),
        None => {
            step_game(core, GameEvent::BallDrain);
            end_multiballs(core);
        }
    }
}

/// While a ball is on, the first ball save that is active.
fn first_active_save<D: Device>(core: &Core<'_, D>) -> Option<RowId>
    requires { HasDevices core.now.plan core.now.machine.devices }
    ensures first { result ≡ first_active_save core.now.plan core.now.machine }
    ensures there { IfSome result (λ row. row.0 < length core.now.plan.rows) }
{
    if !core.is_ball_on() {
        return None;
    }
    let plan = core.plan();
    for number in 0..plan.rows().len() {
        let row = RowId(number as u16);
        if may_save(core, row) {
            return Some(row);
        }
    }
    None
}

/// Whether the device is a ball save that is active. A state is large: only that of a ball save is
/// looked at.
fn may_save<D: Device>(core: &Core<'_, D>, row: RowId) -> bool
    requires row { row.0 < length core.now.plan.rows }
    requires devices { HasDevices core.now.plan core.now.machine.devices }
    ensures { result ≡ (is_save (row_at core.now.plan row).settings
        && is_active_save (device_at core.now.machine row)) }
{
    core.plan().row(row).settings.is_save() && is_active_save(&core.state(row))
}

/// Whether this is the state of a ball save that is active.
fn is_active_save(state: &DeviceState) -> bool
    ensures { result ≡ is_active_save state.now }
{
    match state {
        DeviceState::BallSave(save) => save.active,
        _ => false,
    }
}

/// If only one ball is left in play, the multiballs end.
fn end_multiballs<D: Device>(core: &mut Core<'_, D>)
    requires calls { CanCall core.old }
    requires room { IsWithin core.old.room (end_multiballs core.old.plan core.old.machine) }
    ensures { core.new ≡ after (end_multiballs core.old.plan) core.old }
{
    if core.in_play() == 1 {
        end_each(core);
    }
}

/// Each multiball ends, in the order of the rows.
fn end_each<D: Device>(core: &mut Core<'_, D>)
    requires calls { CanCall core.old }
    requires room { IsWithin core.old.room
        (all_do (call_device core.old.plan (calls.Act End)) (multiball_rows core.old.plan) core.old.machine) }
    ensures { core.new ≡ after (all_do (call_device core.old.plan (calls.Act End)) (multiball_rows core.old.plan))
        core.old }
{
    let plan = core.plan();
    for number in 0..plan.rows().len() {
        let row = RowId(number as u16);
        if plan.row(row).settings.is_multiball() {
            call_device(core, row, Call::Act(Act::End));
        }
    }
}
