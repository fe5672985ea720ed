//! Where ball devices send their balls.
//!
//! Here the number of a ball device is its place among them, from 0. The number after the last place is
//! the playfield, and the next one is every name that no entry defines.

ghost use Rattle.std.specs.Prelude.{◌≡◌, ◌<◌, ◌==◌, length, map, get_or, IfOk};
ghost use Rattle.row_faults.specs.Routes.{leads_to_playfield};
ghost use Rattle.row_faults.specs.Numbers.{number_found, IsNumbered, number_of, after};
ghost use Rattle.row_faults.specs.View.{devices_view};
ghost use Rattle.row_faults.specs.FaultsOf.{numbers_of_targets};

use indexmap::IndexMap;
use machine_definitions::by_name::ByName;
use mpf_sections::BallDeviceEntry;
use mpf_tables::tables::PLAYFIELD;
use std::alloc::{AllocError, Global};
use yaml_subset::keys::KeyHashing;

/// The places of ball devices, by their names.
type Numbers<'a> = ByName<'a, usize>;

/// Whether the balls that each of these ball devices ejects come to the playfield. The time grows
/// with their number times its logarithm.
pub(crate) fn leads_of(
    alloc: Global,
    hashing: KeyHashing,
    devices: &[BallDeviceEntry<'_>],
) -> Result<Vec<bool>, AllocError>
    ensures { IfOk result (λ leads. leads.items
        ≡ map (leads_to_playfield (devices_view devices.now)) (devices_view devices.now)) }
{
    let numbers = numbers_of(alloc, hashing, devices)?;
    let targets = targets_of(alloc, &numbers, devices)?;
    let ends = ends_of(alloc, &targets, devices.len())?;
    are_playfield(alloc, &ends)
}

/// The places of these ball devices, by their names.
fn numbers_of<'a>(
    alloc: Global,
    hashing: KeyHashing,
    devices: &[BallDeviceEntry<'a>],
) -> Result<Numbers<'a>, AllocError>
    ensures { IfOk result (λ numbers. IsNumbered (devices_view devices.now) (number_found numbers)) }
{
    let mut numbers: Numbers<'a> = IndexMap::with_hasher(alloc, hashing);
    for (number, device) in devices.iter().enumerate() {
        numbers.insert(&device.name.text, number)?;
    }
    Ok(numbers)
}

/// The numbers of the targets of these ball devices.
fn targets_of(
    alloc: Global,
    numbers: &Numbers<'_>,
    devices: &[BallDeviceEntry<'_>],
) -> Result<Vec<usize>, AllocError>
    ensures { IfOk result (λ targets. targets.items ≡ numbers_of_targets numbers.now devices.now) }
{
    let mut targets = Vec::new(alloc);
    for device in devices {
        targets.push(number_of(numbers, devices.len(), device.target.text))?;
    }
    Ok(targets)
}

/// The number of a place, if there are so many ball devices.
fn number_of(numbers: &Numbers<'_>, count: usize, name: &[u8]) -> usize
    requires { count < usize.MAX }
    ensures { result ≡ number_of (number_found numbers.now) count name.now }
{
    if name == PLAYFIELD {
        return count;
    }
    match numbers.get(name) {
        Some(number) => *number,
        None => count + 1,
    }
}

/// Where balls come to that go on from each of these targets as many times as said.
fn ends_of(alloc: Global, targets: &[usize], times: usize) -> Result<Vec<usize>, AllocError>
    ensures { IfOk result (λ ends. ends.items ≡ map (after targets.now times) targets.now) }
{
    if times == 0 {
        return Vec::from_slice(alloc, targets);
    }
    let half = ends_of(alloc, targets, (times - 1) / 2)?;
    let twice = one_after_other(alloc, &half, &half)?;
    if times % 2 == 1 {
        Ok(twice)
    } else {
        one_after_other(alloc, &twice, targets)
    }
}

/// Where balls come to that go to each of the first numbers, and on from there by the others. A
/// number beyond these, such as that of the playfield, leads nowhere else.
fn one_after_other(alloc: Global, first: &[usize], then: &[usize]) -> Result<Vec<usize>, AllocError>
    ensures { IfOk result (λ ends. ends.items ≡ map (λ n. get_or then.now n n) first.now) }
{
    first
        .iter()
        .map(|number| then.get(*number).copied().unwrap_or(*number))
        .collect(alloc)
}

/// Which of these numbers are that of the playfield, if there are as many ball devices.
fn are_playfield(alloc: Global, ends: &[usize]) -> Result<Vec<bool>, AllocError>
    ensures { IfOk result (λ leads. leads.items ≡ map (λ n. n == length ends.now) ends.now) }
{
    ends.iter().map(|end| *end == ends.len()).collect(alloc)
}
