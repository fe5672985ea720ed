//! The effect lists that a device answers to a call. A parameter says whether they may tell another device.

ghost use Rattle.std.specs.Prelude.{◌≡◌, ◌<◌, length};
ghost use Rattle.std.specs.List.{All};
ghost use Rattle.plan_tables.specs.Devices.{list_count};
ghost use Rattle.plan_tables.specs.PlanView.{row_at};
ghost use Rattle.plan_tables.specs.Valid.{IsActionWithin};
ghost use Rattle.device_objects.specs.Laws.{MayCome};
ghost use Rattle.written_machine.specs.Machine.{all_do, call_device_by, device_at, do_action_by, do_answer_by};
ghost use Rattle.machine_core.specs.Core.{CanCall, IsWithin, after};
ghost use Rattle.machine_core.specs.Goes.{AlwaysGoes};

use crate::actions::{Tells, run_by};
use crate::core_state::Core;
use device_objects::{Call, Device};
use plan_tables::{Action, Owner, RowId};

/// A device is called, and the effect lists that it answers are run for its owner.
pub(crate) fn call_by<D: Device, T: Tells>(core: &mut Core<'_, D>, row: RowId, call: Call)
    requires row { row.0 < length core.old.plan.rows }
    requires may { MayCome call (device_at core.old.machine row) }
    requires goes { AlwaysGoes T.tell }
    requires calls { CanCall core.old }
    requires room { IsWithin core.old.room
        (call_device_by core.old.plan (T.tell core.old.plan) call row core.old.machine) }
    ensures { core.new ≡ after (call_device_by core.old.plan (T.tell core.old.plan) call row) core.old }
{
    let lists = core.call(row, call);
    lists_by::<D, T>(core, row, &lists);
}

/// Effect lists of a row run, one after another, for the row's owner.
fn lists_by<D: Device, T: Tells>(core: &mut Core<'_, D>, row: RowId, lists: &[u16])
    requires row { row.0 < length core.old.plan.rows }
    requires lists { All (λ list. list < list_count (row_at core.old.plan row).settings) lists.now }
    requires goes { AlwaysGoes T.tell }
    requires calls { CanCall core.old }
    requires room { IsWithin core.old.room
        (do_answer_by core.old.plan (T.tell core.old.plan) row lists.now core.old.machine) }
    ensures { core.new ≡ after (do_answer_by core.old.plan (T.tell core.old.plan) row lists.now) core.old }
{
    let plan = core.plan();
    let owner = plan.row(row).owner;
    for list in lists {
        actions_by::<D, T>(core, owner, plan.list(plan.list_of_row(row, *list)));
    }
}

/// The actions of an effect list, one after another.
pub(crate) fn actions_by<D: Device, T: Tells>(
    core: &mut Core<'_, D>,
    owner: Owner,
    actions: &[Action],
)
    requires actions { All (IsActionWithin core.old.plan) actions.now }
    requires goes { AlwaysGoes T.tell }
    requires calls { CanCall core.old }
    requires room { IsWithin core.old.room
        (all_do (do_action_by core.old.plan (T.tell core.old.plan) owner) actions.now core.old.machine) }
    ensures { core.new ≡ after (all_do (do_action_by core.old.plan (T.tell core.old.plan) owner) actions.now) core.old }
{
    for action in actions {
        run_by::<D, T>(core, owner, action);
    }
}
