//! Lists of numbers: of what is bound to each event, of the bindings and rows of each mode, and of the ball
//! devices that eject to each target; and the place of the first trough.

ghost use Rattle.std.specs.Prelude.{◌≡◌, ◌<◌, ◌≤◌, ◌+◌, [], length, IfOk, IfSome, OnOk};
ghost use Rattle.std.specs.List.{All, position};
ghost use Rattle.std.specs.Option.{option_map};
ghost use Rattle.plan_tables.specs.PlanView.{PlanView, is_trough, target_in};
ghost use Rattle.plan_tables.specs.PlanFields.{HasPlaces, HasModeBindings, HasModeRows, HasFeeders, add_to_list};
ghost use Rattle.plan_tables.specs.PlanFields.{lists_view, mode_place, target_place};

use crate::devices::{BallTarget, DeviceRow, RowId};
use crate::entries::{Binding, BindingId, Owner};
use std::alloc::{AllocError, Global};

/// For each of so many events the places of what is bound to it, in plan order.
pub(crate) fn places_by_event(
    alloc: Global,
    events: usize,
    bindings: &[Binding],
) -> Result<Vec<Vec<BindingId>>, AllocError>
    requires events { All (λ b. b.event.0 < events) bindings.now }
    requires bindings { length bindings.now ≤ 16384 }
    ensures { IfOk result (λ places. (plan : PlanView) → length plan.events ≡ events → plan.bindings ≡ bindings.now
        → HasPlaces plan places.items) }
{
    let mut places = empty_lists(alloc, events)?;
    for (place, binding) in bindings.iter().enumerate() {
        places[binding.event.0 as usize].push(BindingId(place as u16))?;
    }
    Ok(places)
}

/// For each of so many modes the places of its bindings, in plan order.
pub(crate) fn bindings_by_mode(
    alloc: Global,
    modes: usize,
    bindings: &[Binding],
) -> Result<Vec<Vec<BindingId>>, AllocError>
    requires modes { All (λ b. IfSome (mode_place b.owner) (λ place. place < modes)) bindings.now }
    requires bindings { length bindings.now ≤ 16384 }
    ensures { IfOk result (λ lists. (plan : PlanView) → length plan.modes ≡ modes → plan.bindings ≡ bindings.now
        → HasModeBindings plan lists.items) }
{
    let mut lists = empty_lists(alloc, modes)?;
    for (place, binding) in bindings.iter().enumerate() {
        add(
            &mut lists,
            mode_place(binding.owner),
            BindingId(place as u16),
        )?;
    }
    Ok(lists)
}

/// For each of so many modes its rows, in plan order.
pub(crate) fn rows_by_mode(
    alloc: Global,
    modes: usize,
    rows: &[DeviceRow],
) -> Result<Vec<Vec<RowId>>, AllocError>
    requires modes { All (λ row. IfSome (mode_place row.owner) (λ place. place < modes)) rows.now }
    requires rows { length rows.now ≤ 1024 }
    ensures { IfOk result (λ lists. (plan : PlanView) → length plan.modes ≡ modes → plan.rows ≡ rows.now
        → HasModeRows plan lists.items) }
{
    let mut lists = empty_lists(alloc, modes)?;
    for (number, row) in rows.iter().enumerate() {
        add(&mut lists, mode_place(row.owner), RowId(number as u16))?;
    }
    Ok(lists)
}

/// The number of the mode, if it is one that acts.
fn mode_place(owner: Owner) -> Option<usize>
    ensures { result ≡ mode_place owner }
{
    match owner {
        Owner::Machine => None,
        Owner::Mode(mode) => Some(mode.0 as usize),
    }
}

/// For the playfield, and then for each row, the ball devices that eject their balls there, in plan order.
pub(crate) fn feeders_by_target(
    alloc: Global,
    rows: &[DeviceRow],
) -> Result<Vec<Vec<RowId>>, AllocError>
    requires targets { All (λ row. IfSome (option_map target_place (target_in row.settings))
        (λ place. place < length rows.now + 1)) rows.now }
    requires rows { length rows.now ≤ 1024 }
    ensures { IfOk result (λ lists. (plan : PlanView) → plan.rows ≡ rows.now → HasFeeders plan lists.items) }
{
    let mut lists = empty_lists(alloc, rows.len() + 1)?;
    for (number, row) in rows.iter().enumerate() {
        add(&mut lists, feeder_place(*row), RowId(number as u16))?;
    }
    Ok(lists)
}

/// The place of the target of a row, if it is a ball device.
fn feeder_place(row: DeviceRow) -> Option<usize>
    ensures { result ≡ option_map target_place (target_in row.settings) }
{
    match row.settings.target() {
        Some(target) => Some(target_place(target)),
        None => None,
    }
}

/// The place of a target: the playfield comes before all rows.
pub(crate) fn target_place(target: BallTarget) -> usize
    ensures { result ≡ target_place target }
{
    match target {
        BallTarget::Playfield => 0,
        BallTarget::Device(row) => row.0 as usize + 1,
    }
}

/// Adds an item to the list at a place, if there is a place.
fn add<T: Drop>(lists: &mut Vec<Vec<T>>, place: Option<usize>, item: T) -> Result<(), AllocError>
    requires { IfSome place (λ place. place < length lists.old.items) }
    ensures { OnOk result (lists_view lists.new.items ≡ add_to_list (lists_view lists.old.items) place item) }
{
    if let Some(place) = place {
        lists[place].push(item)?;
    }
    Ok(())
}

/// So many empty lists.
fn empty_lists<T: Drop>(alloc: Global, count: usize) -> Result<Vec<Vec<T>>, AllocError>
    ensures { IfOk result (λ lists. (length lists.items ≡ count) × All (λ v. v.items ≡ []) lists.items) }
{
    let mut lists = Vec::with_capacity(alloc, count)?;
    for _ in 0..count {
        lists.push(Vec::new(alloc))?;
    }
    Ok(lists)
}

/// The place of the first trough among these rows, if there is one.
pub(crate) fn place_of_trough(rows: &[DeviceRow]) -> Option<usize>
    ensures { result ≡ position (λ r. is_trough r.settings) rows.now }
{
    rows.iter().position(|row| row.settings.is_trough())
}
