//! Faults that print the same line are listed once.

ghost use Rattle.std.specs.Prelude.{◌≡◌, ◌<◌, ◌^◌, [], true, not, IfOk};
ghost use Rattle.std.specs.Str.{bytes_eq};
ghost use Rattle.yaml_subset.specs.Keys.{is_among, copies_view};
ghost use Rattle.row_faults.specs.RowFaults.{listed_once};
ghost use Rattle.row_faults.specs.Plain.{ArePlain, IsPlain};
ghost use Rattle.row_faults.specs.Apart.{HaveLines, are_apart, is_apart, is_in_order};
ghost use Rattle.row_faults.specs.View.{row_fault_view, row_faults_view};
ghost use Rattle.row_faults.specs.FaultsOf.{GainsLine, printed_line};

use crate::fault::RowFault;
use crate::fault_text::write_row_fault;
use indexmap::IndexSet;
use std::alloc::{AllocError, Global};
use std::borrow::CowSlice;
use yaml_subset::keys::{KeyHashing, KeySet, no_keys, take_key};

/// The faults, without those that print the line of a fault before them.
pub(crate) fn listed_once(
    alloc: Global,
    hashing: KeyHashing,
    faults: Vec<RowFault>,
) -> Result<Vec<RowFault>, AllocError>
    ensures { IfOk result (λ order. row_faults_view order.items ≡ listed_once [] (row_faults_view faults.items)) }
{
    if are_apart(&faults) {
        return Ok(faults);
    }
    if are_plain(&faults) {
        return first_of_each(alloc, hashing, faults);
    }
    first_of_each_line(alloc, hashing, faults)
}

/// Whether the faults are of one text, by line and number, and have different names if their lines
/// and numbers are the same. No two of these print the same line. It may be so, and not be seen, if
/// there are more than [`COMPARE_LIMIT`] of one line and number.
fn are_apart(faults: &[RowFault]) -> bool
    ensures value { result ≡ true → are_apart (row_faults_view faults.now) ≡ true }
    ensures lines { result ≡ true → HaveLines (row_faults_view faults.now) }
{
    let mut rest = faults;
    while let [fault, after @ ..] = rest {
        if !is_in_order(fault, after) || !is_apart(fault, after) {
            return false;
        }
        rest = after;
    }
    true
}

/// Whether a fault is of the text of the next one, and not behind it by line and number, if there is
/// a next one.
fn is_in_order(fault: &RowFault, after: &[RowFault]) -> bool
    ensures value { result ≡ is_in_order (row_fault_view fault.now) (row_faults_view after.now) }
    ensures line { fault.now.line < 2 ^ 64 }
{
    let line = fault.line;
    match after {
        [] => true,
        [next, ..] => {
            line <= next.line
                && (line < next.line || fault.kind.number() <= next.kind.number())
                && fault.text == next.text
        }
    }
}

/// How many faults of one line and number are compared one by one. More of them are hashed.
const COMPARE_LIMIT: usize = 32;

/// Whether none of these up to the next line or number has the name of the fault before them.
fn is_apart(fault: &RowFault, after: &[RowFault]) -> bool
    ensures { result ≡ true → is_apart (row_fault_view fault.now) (row_faults_view after.now) ≡ true }
{
    let name: &[u8] = &fault.name;
    let mut rest = after;
    let mut budget = COMPARE_LIMIT;
    while let [next, behind @ ..] = rest {
        if fault.line < next.line || fault.kind.number() < next.kind.number() {
            return true;
        }
        if budget == 0 || !differ(name, &next.name) {
            return false;
        }
        budget -= 1;
        rest = behind;
    }
    true
}

/// Whether two names differ. Most that do differ in their last letters, so these come first.
fn differ(name: &[u8], other: &[u8]) -> bool
    ensures { result ≡ not (bytes_eq name.now other.now) }
{
    if let [.., last] = name
        && let [.., end] = other
        && *last != *end
    {
        return true;
    }
    name != other
}

/// Whether the names of all texts of these are printed as they are, and as one word. Two of these
/// print the same line if and only if they are equal.
fn are_plain(faults: &[RowFault]) -> bool
    ensures { result ≡ true → ArePlain (row_faults_view faults.now) }
{
    let mut rest = faults;
    while let [fault, after @ ..] = rest {
        if !is_plain(fault) {
            return false;
        }
        rest = after;
    }
    true
}

/// Whether the name of its text is printed as it is, and as one word.
fn is_plain(fault: &RowFault) -> bool
    ensures { result ≡ true → IsPlain (row_fault_view fault.now) }
{
    // (the number of a line is below 2^64)
    let _line = fault.line;
    fault.text.is_plain()
}

/// The same as [`listed_once`], of faults that print the same line only if they are equal. So no
/// line is made, which would take far more memory than the fault. They are hashed as the bundle
/// says, whose parts they are.
fn first_of_each(
    alloc: Global,
    hashing: KeyHashing,
    faults: Vec<RowFault>,
) -> Result<Vec<RowFault>, AllocError>
    requires { ArePlain (row_faults_view faults.items) }
    ensures { IfOk result (λ order. row_faults_view order.items ≡ listed_once [] (row_faults_view faults.items)) }
{
    let each = each_once(alloc, hashing, faults)?;
    let mut order = Vec::with_capacity(alloc, each.len())?;
    for fault in each {
        order.push(fault)?;
    }
    Ok(order)
}

/// The same, as a set.
fn each_once(
    alloc: Global,
    hashing: KeyHashing,
    faults: Vec<RowFault>,
) -> Result<IndexSet<RowFault, KeyHashing>, AllocError>
    requires { ArePlain (row_faults_view faults.items) }
    ensures { IfOk result (λ each. row_faults_view each.keys ≡ listed_once [] (row_faults_view faults.items)) }
{
    let mut each = IndexSet::with_hasher(alloc, hashing);
    for fault in faults {
        each.insert(fault)?;
    }
    Ok(each)
}

/// The same as [`listed_once`], by the lines of all faults. They are hashed in the same way.
fn first_of_each_line(
    alloc: Global,
    hashing: KeyHashing,
    faults: Vec<RowFault>,
) -> Result<Vec<RowFault>, AllocError>
    ensures { IfOk result (λ order. row_faults_view order.items ≡ listed_once [] (row_faults_view faults.items)) }
{
    let mut lines = no_keys(alloc, hashing);
    let mut order = Vec::new(alloc);
    for fault in faults {
        let fresh = is_new(alloc, &mut lines, &fault)?;
        if fresh {
            order.push(fault)?;
        } else {
            drop(fault);
        }
    }
    Ok(order)
}

/// Takes the line of a fault, and says whether it is new. If memory runs out, it may be taken or
/// not.
fn is_new(alloc: Global, lines: &mut KeySet, fault: &RowFault) -> Result<bool, AllocError>
    ensures fresh { IfOk result (λ fresh. fresh ≡ not (is_among (copies_view lines.old) (printed_line fault.now))) }
    ensures known { IfOk result (λ fresh. GainsLine lines.old lines.new (printed_line fault.now)) }
{
    let line = line_of(alloc, fault)?;
    let fresh = take_key(lines, CowSlice::Owned(line))?;
    Ok(fresh)
}

/// About how many bytes the line of a fault has.
const LINE_LEN: usize = 64;

/// The line that a report has for a fault.
fn line_of(alloc: Global, fault: &RowFault) -> Result<Vec<u8>, AllocError>
    ensures { IfOk result (λ line. line.items ≡ printed_line fault.now) }
{
    let mut line = Vec::with_capacity(alloc, LINE_LEN)?;
    match write_row_fault(fault, &mut line) {
        Ok(()) => Ok(line),
        Err(_) => Err(AllocError),
    }
}
