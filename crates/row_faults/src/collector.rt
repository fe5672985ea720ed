//! The faults that are found in a text, and what they depend on.

ghost use Rattle.std.specs.Prelude.{◌≡◌, true, IfOk, OnOk};
ghost use Rattle.mpf_sections.specs.View.{name_view, name_at_view};
ghost use Rattle.row_faults.specs.CoilFaults.{fault_at};
ghost use Rattle.row_faults.specs.Collected.{Gains};
ghost use Rattle.row_faults.specs.View.{letters_of, row_fault_view, row_faults_view};
ghost use Rattle.row_faults.specs.FaultsOf.{fault_where};

use crate::fault::{RowFault, RowFaultKind};
use crate::reserved::ModeEventNames;
use crate::text_name::TextName;
use machine_definitions::Definitions;
use mpf_config::{Name, NameAt};
use setting_values::values::NameText;
use std::alloc::{AllocError, Global};
use std::marker::Model;

/// The faults of a text, in the order in which they are found, and what faults depend on.
#[derive(Drop)]
pub(crate) struct Faults<'k, 'd> {
    pub(crate) alloc: Global,
    /// What the entries of the configuration define.
    pub(crate) definitions: &'k Definitions<'d>,
    /// The events of its modes.
    pub(crate) modes: &'k ModeEventNames,
    /// The name of the text.
    pub(crate) text: &'k TextName,
    pub(crate) found_faults: Vec<RowFault>,
}

impl<'k, 'd> Model for Faults<'k, 'd> {
    ghost use Rattle.row_faults.specs.Collected.{FaultsView};
    ghost use Rattle.row_faults.specs.View.{events_view, letters_of, row_faults_view};

    ghost Value = { FaultsView };

    ghost view = { λ f.
        record {
          rows = f.definitions.now;
          modes = events_view f.modes.now;
          text = letters_of f.text.now;
          found_faults = row_faults_view f.found_faults.items;
        } };
}

/// The faults that were found.
pub(crate) fn found_in(faults: Faults<'_, '_>) -> Vec<RowFault>
    ensures { row_faults_view result.items ≡ faults.entry.found_faults }
{
    faults.found_faults
}

/// A name where it is written.
pub(crate) fn at(name: &Name) -> NameAt<'_>
    ensures { name_at_view result ≡ name_view name.now }
{
    NameAt {
        line: name.line,
        text: &name.text,
    }
}

/// What is wrong with this name of the text.
fn fault_at(
    alloc: Global,
    kind: RowFaultKind,
    text: &TextName,
    name: NameAt<'_>,
) -> Result<RowFault, AllocError>
    ensures { IfOk result (λ fault. row_fault_view fault
        ≡ fault_at kind (letters_of text.now) (name_at_view name.entry)) }
{
    Ok(RowFault {
        kind,
        line: name.line,
        text: text.share()?,
        name: NameText::from_slice(alloc, name.text)?,
    })
}

/// Adds a fault of this name of the text, if something is wrong. Inlined, as mostly nothing is.
#[inline(always)]
pub(crate) fn add_if(
    faults: &mut Faults<'_, '_>,
    wrong: bool,
    kind: RowFaultKind,
    name: NameAt<'_>,
) -> Result<(), AllocError>
    ensures { OnOk result (Gains faults.old faults.new (fault_where faults.old wrong kind name.entry)) }
{
    if wrong {
        add(faults, kind, name)?;
    }
    Ok(())
}

/// Adds a fault of this name of the text.
fn add(faults: &mut Faults<'_, '_>, kind: RowFaultKind, name: NameAt<'_>) -> Result<(), AllocError>
    ensures { OnOk result (Gains faults.old faults.new (fault_where faults.old true kind name.entry)) }
{
    let fault = fault_at(faults.alloc, kind, faults.text, name)?;
    faults.found_faults.push(fault)?;
    Ok(())
}
