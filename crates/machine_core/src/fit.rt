//! Whether devices are those of a plan.

ghost use Rattle.std.specs.Prelude.{◌≡◌, ◌<◌, ◌↔◌, length, map, IfNone, IfSome, IsTrue};
ghost use Rattle.device_objects.specs.DeviceStep.{first_state};
ghost use Rattle.plan_tables.specs.PlanView.{row_at};
ghost use Rattle.machine_core.specs.Fit.{IsFit, IsFirstWrong};

use device_objects::{Device, first_state, is_same_row, is_same_state};
use plan_tables::{Plan, RowId};

/// The first row whose device is not the one of the row, in its first state. If there are too
/// few devices, it is the first row without one, and if there are too many, the first number
/// without a row.
pub(crate) fn first_wrong<D: Device>(plan: &Plan, devices: &[D]) -> Option<RowId>
    ensures fit { IfNone result (IsFit plan.now (map D.row_of devices.now) (map D.state_of devices.now)) }
    ensures wrong { IfSome result (λ row. IsFirstWrong plan.now (map D.row_of devices.now) (map D.state_of devices.now)
        row.0) }
{
    let rows = plan.rows().len();
    for number in 0..rows {
        let row = RowId(number as u16);
        if number >= devices.len() || !is_right(plan, row, &devices[number]) {
            return Some(row);
        }
    }
    if rows < devices.len() {
        return Some(RowId(rows as u16));
    }
    None
}

/// Whether a device is the one of the row, in its first state.
fn is_right<D: Device>(plan: &Plan, row: RowId, device: &D) -> bool
    requires { row.0 < length plan.now.rows }
    ensures { IsTrue result ↔ ((D.row_of device.now ≡ row_at plan.now row)
        × (D.state_of device.now ≡ first_state (row_at plan.now row).settings)) }
{
    let plan_row = plan.row(row);
    is_same_row(&device.row(), &plan_row)
        && is_same_state(&device.state(), &first_state(&plan_row.settings))
}
