//! Whether two rows are the same, and what several kinds compare.

ghost use Rattle.std.specs.Prelude.{◌≡◌, ◌↔◌, IsTrue};

use crate::kinds::is_same_settings;
use machine_settings::{BlockSettings, Direction, StepSettings};
use plan_tables::{DeviceRow, Owner};

/// Whether two rows are the same.
pub fn is_same_row(a: &DeviceRow, b: &DeviceRow) -> bool
    ensures { IsTrue result ↔ (a.now ≡ b.now) }
{
    a.number.0 == b.number.0
        && is_same_owner(a.owner, b.owner)
        && is_same_settings(&a.settings, &b.settings)
}

fn is_same_owner(a: Owner, b: Owner) -> bool
    ensures { IsTrue result ↔ (a ≡ b) }
{
    match (a, b) {
        (Owner::Machine, Owner::Machine) => true,
        (Owner::Mode(a), Owner::Mode(b)) => a.0 == b.0,
        _ => false,
    }
}

pub(crate) fn are_same_block_settings(a: &BlockSettings, b: &BlockSettings) -> bool
    ensures { IsTrue result ↔ (a.now ≡ b.now) }
{
    *a == *b
}

pub(crate) fn are_same_directions(a: Direction, b: Direction) -> bool
    ensures { IsTrue result ↔ (a ≡ b) }
{
    a == b
}

pub(crate) fn are_same_step_settings(a: &StepSettings, b: &StepSettings) -> bool
    ensures { IsTrue result ↔ (a.now ≡ b.now) }
{
    *a == *b
}

pub(crate) fn are_same_marks(a: &[bool; 16], b: &[bool; 16]) -> bool
    ensures { IsTrue result ↔ (a.now ≡ b.now) }
{
    *a == *b
}
