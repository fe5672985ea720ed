//! The faults of all rows.

ghost use Rattle.std.specs.Prelude.{◌≡◌, [], IfOk, OnOk};
ghost use Rattle.mpf_sections.specs.View.{timer_view};
ghost use Rattle.mpf_config.specs.View.{rows_view};
ghost use Rattle.row_faults.specs.Collected.{Gains};
ghost use Rattle.row_faults.specs.RowFaults.{starts_at_end, fault_line, fault_number, faults_by, row_faults};
ghost use Rattle.row_faults.specs.Sound.{IsSound};
ghost use Rattle.row_faults.specs.View.{events_view, row_faults_view};
ghost use Rattle.row_faults.specs.FaultsOf.{GainsFaults, Sorts, Takes, faults_of_modes, faults_of_section};
ghost use Rattle.row_faults.specs.FaultsOf.{faults_of_sections, faults_of_text, faults_of_timers, listed_by_section};
ghost use Rattle.row_faults.specs.FaultsOf.{listed_by_sections};

use crate::ball_faults::add_ball_devices;
use crate::coil_faults::add_coil_faults;
use crate::collector::{Faults, add_if, at, found_in};
use crate::fault::{RowFault, RowFaultKind};
use crate::once::listed_once;
use crate::reserved::{ModeEventNames, add_posts, add_texts, events_of_modes};
use crate::routes::add_route_faults;
use crate::shot_faults::{ShotNames, add_groups, add_shots, shots_for_groups};
use crate::text_name::TextName;
use crate::variable_faults::add_variable_players;
use indexmap::IndexSet;
use machine_definitions::Definitions;
use mpf_config::{
    Config, MACHINE_NAME, ModeText, Section, TimerEntry, as_timer, listed_modes, mode_text_name,
};
use mpf_tables::tables::TIMERS_NAME;
use std::alloc::{AllocError, Global};

/// The faults of the rows that these definitions are of, in the order in which a report lists them: by text,
/// line and number, and those of one line and number as they are written. Those that print the same
/// line are listed once. Rows without any are sound: no coil is sent what goes past its limits, and
/// the balls of each ball device come to the playfield.
///
/// # Errors
///
/// Memory ran out.
#[tactic(auto, unfolding(crate::specs::RowFaults::row_faults))]
pub fn faults_of_rows(
    alloc: Global,
    definitions: &Definitions<'_>,
) -> Result<Vec<RowFault>, AllocError>
    ensures exact { IfOk result (λ faults. row_faults_view faults.items ≡ row_faults definitions.now) }
    ensures sound { IfOk result (λ faults. faults.items ≡ [] → IsSound definitions.now) }
{
    let config = definitions.config();
    let mut modes = events_of_modes(alloc, listed_modes(&config.machine.sections))?;
    add_texts(alloc, &mut modes, &config.modes)?;
    let faults = faults_of_texts(alloc, &modes, definitions, config)?;
    listed_once(alloc, config.hashing, faults)
}

/// The faults of all texts: of the machine text, then of the modes' in their order. The definitions
/// are those of the configuration.
fn faults_of_texts<'a>(
    alloc: Global,
    modes: &ModeEventNames,
    definitions: &Definitions<'_>,
    config: &'a Config,
) -> Result<Vec<RowFault>, AllocError>
    requires { definitions.now ≡ rows_view config.now }
    ensures { IfOk result (λ faults. row_faults_view faults.items
        ≡ faults_by (events_view modes.now) (rows_view config.now)) }
{
    let machine: &'a [Section] = config.machine.sections.as_slice();
    let texts: &'a [ModeText] = config.modes.as_slice();
    let mut shots_before: ShotNames<'a> = IndexSet::with_hasher(alloc, config.hashing);
    let mut faults = faults_of_text(
        alloc,
        &mut shots_before,
        modes,
        definitions,
        MACHINE_NAME,
        machine,
    )?;
    add_modes(
        alloc,
        &mut faults,
        &mut shots_before,
        modes,
        definitions,
        texts,
    )?;
    Ok(faults)
}

/// Adds the faults of the texts of these modes, if groups of texts before them list the shots
/// that are taken.
fn add_modes<'a>(
    alloc: Global,
    faults: &mut Vec<RowFault>,
    shots_before: &mut ShotNames<'a>,
    modes: &ModeEventNames,
    definitions: &Definitions<'_>,
    texts: &'a [ModeText],
) -> Result<(), AllocError>
    ensures { OnOk result (GainsFaults faults.old faults.new
        (faults_of_modes modes.now definitions.now shots_before.old texts.now)) }
{
    for text in texts {
        let name = mode_text_name(alloc, &text.name)?;
        let own = faults_of_text(
            alloc,
            shots_before,
            modes,
            definitions,
            &name,
            &text.sections,
        )?;
        add_all(faults, own)?;
    }
    Ok(())
}

fn add_all(faults: &mut Vec<RowFault>, own: Vec<RowFault>) -> Result<(), AllocError>
    ensures { OnOk result (GainsFaults faults.old faults.new (row_faults_view own.items)) }
{
    // (the faults of one text are often all there are)
    if faults.is_empty() {
        *faults = own;
        return Ok(());
    }
    faults.reserve(own.len())?;
    for fault in own {
        faults.push(fault)?;
    }
    Ok(())
}

/// The faults of the text of this name, by line and number, if groups of texts before it list the
/// shots that are taken. Takes those that its groups list.
fn faults_of_text<'a>(
    alloc: Global,
    shots_before: &mut ShotNames<'a>,
    modes: &ModeEventNames,
    definitions: &Definitions<'_>,
    text: &[u8],
    sections: &'a [Section],
) -> Result<Vec<RowFault>, AllocError>
    ensures faults { IfOk result (λ faults. row_faults_view faults.items
        ≡ faults_of_text modes.now definitions.now shots_before.old text.now sections.now) }
    ensures takes { IfOk result (λ _. Takes shots_before.old shots_before.new
        (listed_by_sections definitions.now sections.now)) }
{
    let own = shots_for_groups(alloc, definitions.config().hashing, sections)?;
    let name = TextName::new(alloc, text)?;
    let mut faults = Faults {
        alloc,
        definitions,
        modes,
        text: &name,
        found_faults: Vec::new(alloc),
    };
    add_sections(&mut faults, shots_before, &own, sections)?;
    add_route_faults(&mut faults, sections)?;
    let mut found_faults = found_in(faults);
    sort_by_number(&mut found_faults)?;
    sort_by_line(&mut found_faults)?;
    Ok(found_faults)
}

/// By number, those of one number as they are.
fn sort_by_number(faults: &mut Vec<RowFault>) -> Result<(), AllocError>
    ensures { OnOk result (Sorts fault_number faults.old faults.new) }
{
    // Most are in order, and a sort takes memory.
    if faults.is_sorted_by_key(|fault| fault.kind.number()) {
        return Ok(());
    }
    faults.sort_by_key(|fault| fault.kind.number())?;
    Ok(())
}

/// By line, those of one line as they are.
fn sort_by_line(faults: &mut Vec<RowFault>) -> Result<(), AllocError>
    ensures { OnOk result (Sorts fault_line faults.old faults.new) }
{
    if faults.is_sorted_by_key(|fault| fault.line) {
        return Ok(());
    }
    faults.sort_by_key(|fault| fault.line)?;
    Ok(())
}

/// Adds the faults of these sections, as written. Here `own` are the shots that their text defines.
fn add_sections<'a>(
    faults: &mut Faults<'_, '_>,
    shots_before: &mut ShotNames<'a>,
    own: &ShotNames<'_>,
    sections: &'a [Section],
) -> Result<(), AllocError>
    ensures faults { OnOk result (Gains faults.old faults.new
        (faults_of_sections faults.old own.now shots_before.old sections.now)) }
    ensures takes { OnOk result (Takes shots_before.old shots_before.new
        (listed_by_sections faults.old.rows sections.now)) }
{
    for section in sections {
        add_section(faults, shots_before, own, section)?;
    }
    Ok(())
}

/// Adds the faults of a section, as written.
fn add_section<'a>(
    faults: &mut Faults<'_, '_>,
    shots_before: &mut ShotNames<'a>,
    own: &ShotNames<'_>,
    section: &'a Section,
) -> Result<(), AllocError>
    ensures faults { OnOk result (Gains faults.old faults.new
        (faults_of_section faults.old own.now shots_before.old section.now)) }
    ensures takes { OnOk result (Takes shots_before.old shots_before.new
        (listed_by_section faults.old.rows section.now)) }
{
    add_posts(faults, section)?;
    add_variable_players(faults, section)?;
    add_coil_faults(faults, section)?;
    add_ball_devices(faults, section)?;
    add_shots(faults, section)?;
    add_groups(faults, shots_before, own, section)?;
    add_timers(faults, section)
}

/// Adds a fault for each timer of a section that starts at its end.
#[tactic(auto, unfolding(mpf_sections::specs::Typed::timers_in))]
fn add_timers(faults: &mut Faults<'_, '_>, section: &Section) -> Result<(), AllocError>
    ensures { OnOk result (Gains faults.old faults.new (faults_of_timers faults.old section.now)) }
{
    let entries = section.entries_of(TIMERS_NAME);
    for entry in entries {
        let timer = as_timer(entry);
        let wrong = starts_at_end(timer);
        add_if(faults, wrong, RowFaultKind::TimerAtEnd, at(timer.name))?;
    }
    Ok(())
}

/// Whether a timer is at its end before it runs.
fn starts_at_end(timer: TimerEntry<'_>) -> bool
    ensures { result ≡ starts_at_end (timer_view timer.entry) }
{
    let settings = timer.settings;
    settings.direction.is_at_end(settings.end, settings.start)
}
