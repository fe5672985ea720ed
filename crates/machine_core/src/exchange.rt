//! A device takes the place of another one.

ghost use Rattle.std.specs.Prelude.{◌≡◌, ◌<◌, Some, length, slice_get, slice_set};

use device_objects::Device;
use plan_tables::RowId;
use std::mem;

/// Puts a device in the place of that of a row, and gives the one that was there.
pub(crate) fn put_in_place<D: Device>(devices: &mut Vec<D>, row: RowId, device: D) -> D
    requires { row.0 < length devices.old.items }
    ensures put { devices.new.items ≡ slice_set devices.old.items row.0 device }
    ensures takes { slice_get devices.old.items row.0 ≡ Some result }
{
    mem::replace(&mut devices[row.0 as usize], device)
}
