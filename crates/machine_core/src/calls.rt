//! Calls of devices, and the effect lists that they answer.

ghost use Rattle.std.specs.Prelude.{◌≡◌, ◌<◌, length};
ghost use Rattle.std.specs.List.{All};
ghost use Rattle.plan_tables.specs.Valid.{IsActionWithin};
ghost use Rattle.device_objects.specs.declared.state.DeviceState.{DeviceState as DeviceStateValue};
ghost use Rattle.device_objects.specs.Laws.{MayCome};
ghost use Rattle.written_machine.specs.Machine.{all_do, device_at, do_action, call_device, call_devices};
ghost use Rattle.machine_core.specs.Core.{CanCall, IsWithin, after};

use crate::actions::Tells;
use crate::core_state::Core;
use crate::lists::{actions_by, call_by};
use crate::tellings::tell;
use device_objects::{Call, Device};
use plan_tables::{Action, ModeId, Owner, RowId, Telling};

/// The devices of a mode are called, in the order of their rows.
pub(crate) fn call_devices<D: Device>(core: &mut Core<'_, D>, mode: ModeId, call: Call)
    requires mode { mode.0 < length core.old.plan.modes }
    requires call { (state : DeviceStateValue) → MayCome call state }
    requires calls { CanCall core.old }
    requires room { IsWithin core.old.room (call_devices core.old.plan call mode core.old.machine) }
    ensures { core.new ≡ after (call_devices core.old.plan call mode) core.old }
{
    let rows = core.plan().rows_of_mode(mode);
    for row in rows {
        call_device(core, *row, call);
    }
}

/// A device is called, and the effect lists that it answers are run for its owner.
pub(crate) fn call_device<D: Device>(core: &mut Core<'_, D>, row: RowId, call: Call)
    requires row { row.0 < length core.old.plan.rows }
    requires may { MayCome call (device_at core.old.machine row) }
    requires calls { CanCall core.old }
    requires room { IsWithin core.old.room (call_device core.old.plan call row core.old.machine) }
    ensures { core.new ≡ after (call_device core.old.plan call row) core.old }
{
    call_by::<D, TellsFirst>(core, row, call);
}

/// The ball device that is to know of an action is told.
struct TellsFirst;

impl Tells for TellsFirst {
    ghost use Rattle.written_machine.specs.Machine.{tell_first};

    ghost tell = { tell_first };

    fn tell<D: Device>(core: &mut Core<'_, D>, telling: Telling) {
        tell(core, telling);
    }
}

/// The actions of an effect list, one after another.
pub(crate) fn run_actions<D: Device>(core: &mut Core<'_, D>, owner: Owner, actions: &[Action])
    requires actions { All (IsActionWithin core.old.plan) actions.now }
    requires calls { CanCall core.old }
    requires room { IsWithin core.old.room (all_do (do_action core.old.plan owner) actions.now core.old.machine) }
    ensures { core.new ≡ after (all_do (do_action core.old.plan owner) actions.now) core.old }
{
    actions_by::<D, TellsFirst>(core, owner, actions);
}
