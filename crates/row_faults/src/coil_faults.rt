//! What is wrong with coils, and with what is said of them elsewhere.

ghost use Rattle.std.specs.Prelude.{◌≡◌, ◌||◌, ◌&&◌, not, nat_lt, OnOk};
ghost use Rattle.yaml_subset.specs.Keys.{is_among};
ghost use Rattle.mpf_sections.specs.CoilRules.{coil_rule_sections};
ghost use Rattle.row_faults.specs.CoilFaults.{is_above, is_enable};
ghost use Rattle.row_faults.specs.Collected.{Gains};
ghost use Rattle.row_faults.specs.FaultsOf.{faults_by_limits, faults_of_coil, faults_of_coil_item};
ghost use Rattle.row_faults.specs.FaultsOf.{faults_of_coil_items, faults_of_coil_name, faults_of_coil_players};
ghost use Rattle.row_faults.specs.FaultsOf.{faults_of_coil_rule, faults_of_coils, faults_about_coils, faults_of_rule};
ghost use Rattle.row_faults.specs.FaultsOf.{faults_of_rules, faults_by_hold_limits, faults_of_hold_coil};
ghost use Rattle.row_faults.specs.FaultsOf.{faults_of_switch_name};

use crate::as_written::{NamedThing, add_as_written};
use crate::collector::{Faults, add_if, at};
use crate::fault::RowFaultKind;
use mpf_config::{
    Coil, CoilAction, CoilItem, CoilRule, Entry, KeyedValues, NameAt, Section, as_coil,
    as_coil_item, as_coil_player, as_coil_rule,
};
use mpf_sections::coil_rules::COIL_RULE_SECTIONS;
use mpf_tables::tables::{COIL_PLAYER_NAME, COILS_NAME};
use section_tables::is_one_of;
use std::alloc::AllocError;

/// Adds the faults of what a section says of coils, as written.
pub(crate) fn add_coil_faults(
    faults: &mut Faults<'_, '_>,
    section: &Section,
) -> Result<(), AllocError>
    ensures { OnOk result (Gains faults.old faults.new (faults_about_coils faults.old section.now)) }
{
    add_coils(faults, section)?;
    add_coil_players(faults, section)?;
    add_rules(faults, section)
}

// ---- names

/// Adds a fault if no entry defines a coil of this name.
pub(crate) fn add_coil_name(faults: &mut Faults<'_, '_>, name: NameAt<'_>) -> Result<(), AllocError>
    ensures { OnOk result (Gains faults.old faults.new (faults_of_coil_name faults.old name.entry)) }
{
    let unknown = faults.definitions.coil(name.text).is_none();
    add_if(faults, unknown, RowFaultKind::Name, name)
}

/// Adds a fault if no entry defines a switch of this name.
pub(crate) fn add_switch_name(
    faults: &mut Faults<'_, '_>,
    name: NameAt<'_>,
) -> Result<(), AllocError>
    ensures { OnOk result (Gains faults.old faults.new (faults_of_switch_name faults.old name.entry)) }
{
    let unknown = !faults.definitions.has_switch(name.text);
    add_if(faults, unknown, RowFaultKind::Name, name)
}

// ---- `coils`

/// Adds the faults of the coils of a section.
#[tactic(auto, unfolding(mpf_sections::specs::TypedCoils::coils_in))]
fn add_coils(faults: &mut Faults<'_, '_>, section: &Section) -> Result<(), AllocError>
    ensures { OnOk result (Gains faults.old faults.new (faults_of_coils faults.old section.now)) }
{
    let entries = section.entries_of(COILS_NAME);
    for entry in entries {
        add_coil(faults, as_coil(entry))?;
    }
    Ok(())
}

/// Adds the faults of a coil.
fn add_coil(faults: &mut Faults<'_, '_>, coil: Coil<'_>) -> Result<(), AllocError>
    ensures { OnOk result (Gains faults.old faults.new (faults_of_coil faults.old coil.entry)) }
{
    let name = at(coil.name);
    let long = coil.max_pulse_ms < coil.pulse_ms;
    add_if(faults, long, RowFaultKind::PulseLimit, name)?;
    let strong = is_strong(coil);
    add_if(faults, strong, RowFaultKind::PowerLimit, name)
}

/// Whether a power of the coil's own is above the greatest one.
fn is_strong(coil: Coil<'_>) -> bool
    ensures { result ≡ (nat_lt coil.entry.max_pulse_power coil.entry.pulse_power
        || nat_lt coil.entry.max_hold_power coil.entry.hold_power) }
{
    coil.max_pulse_power < coil.pulse_power || coil.max_hold_power < coil.hold_power
}

// ---- `coil_player`

/// Adds the faults of what coils do in the entries of a section.
#[tactic(auto, unfolding(mpf_sections::specs::TypedCoils::coil_players_in))]
fn add_coil_players(faults: &mut Faults<'_, '_>, section: &Section) -> Result<(), AllocError>
    ensures { OnOk result (Gains faults.old faults.new (faults_of_coil_players faults.old section.now)) }
{
    let players = section.players_of(COIL_PLAYER_NAME);
    for player in players {
        add_items(faults, as_coil_player(player).items)?;
    }
    Ok(())
}

/// Adds the faults of what coils do in an entry.
fn add_items(faults: &mut Faults<'_, '_>, items: &[KeyedValues]) -> Result<(), AllocError>
    ensures { OnOk result (Gains faults.old faults.new (faults_of_coil_items faults.old items.now)) }
{
    for item in items {
        add_item(faults, as_coil_item(item))?;
    }
    Ok(())
}

/// Adds the faults of what a coil does. The limits of a coil that there is not are not judged.
fn add_item(faults: &mut Faults<'_, '_>, item: CoilItem<'_>) -> Result<(), AllocError>
    ensures { OnOk result (Gains faults.old faults.new (faults_of_coil_item faults.old item.entry)) }
{
    match faults.definitions.coil(&item.coil.text) {
        Some(coil) => add_limits(faults, item, coil),
        None => {
            let name = at(item.coil);
            add_if(faults, true, RowFaultKind::Name, name)
        }
    }
}

/// Adds the faults of what this coil does. All that is written counts, whatever it does.
fn add_limits(
    faults: &mut Faults<'_, '_>,
    item: CoilItem<'_>,
    coil: Coil<'_>,
) -> Result<(), AllocError>
    ensures { OnOk result (Gains faults.old faults.new (faults_by_limits faults.old item.entry coil.entry)) }
{
    let name = at(item.coil);
    let long = is_longer(item.pulse_ms, coil.max_pulse_ms);
    add_if(faults, long, RowFaultKind::PulseLimit, name)?;
    let strong = is_stronger_than(item, coil);
    add_if(faults, strong, RowFaultKind::PowerLimit, name)?;
    let is_refused = may_not_hold(item.action, coil);
    add_if(faults, is_refused, RowFaultKind::HoldNotAllowed, name)
}

/// Whether the milliseconds that are written are more than the longest pulse has.
fn is_longer(own_pulse: Option<u32>, longest: u32) -> bool
    ensures { result ≡ is_above own_pulse longest }
{
    match own_pulse {
        Some(ms) => longest < ms,
        None => false,
    }
}

/// Whether a power that is written is above the greatest one.
fn is_stronger(own_pulse: Option<u16>, greatest: u16) -> bool
    ensures { result ≡ is_above own_pulse greatest }
{
    match own_pulse {
        Some(power) => greatest < power,
        None => false,
    }
}

/// Whether a power that is written is above the greatest one of the coil.
fn is_stronger_than(item: CoilItem<'_>, coil: Coil<'_>) -> bool
    ensures { result ≡ (is_above item.entry.pulse_power coil.entry.max_pulse_power
        || is_above item.entry.hold_power coil.entry.max_hold_power) }
{
    let pulse = is_stronger(item.pulse_power, coil.max_pulse_power);
    let hold = is_stronger(item.hold_power, coil.max_hold_power);
    pulse || hold
}

/// Whether the coil is to be held, and may not be.
fn may_not_hold(action: CoilAction, coil: Coil<'_>) -> bool
    ensures { result ≡ (is_enable action && not coil.entry.may_hold) }
{
    match action {
        CoilAction::Enable => !coil.may_hold,
        CoilAction::Pulse | CoilAction::Disable => false,
    }
}

// ---- coil rules

/// Adds the faults of the coil rules of a section. Of other sections no entry is looked at.
fn add_rules(faults: &mut Faults<'_, '_>, section: &Section) -> Result<(), AllocError>
    ensures { OnOk result (Gains faults.old faults.new (faults_of_rules faults.old section.now)) }
{
    if has_coil_rules(&section.name) {
        return add_all_rules(faults, section);
    }
    Ok(())
}

/// Whether the entries of a section of this name are coil rules.
fn has_coil_rules(section: &[u8]) -> bool
    ensures { result ≡ is_among coil_rule_sections section.now }
{
    is_one_of(&COIL_RULE_SECTIONS, section)
}

/// Adds the faults of all entries of a section that are coil rules.
fn add_all_rules(faults: &mut Faults<'_, '_>, section: &Section) -> Result<(), AllocError>
    ensures { OnOk result (Gains faults.old faults.new (faults_of_rules faults.old section.now)) }
{
    let entries = section.content.entries();
    for entry in entries {
        add_rule(faults, &section.name, entry)?;
    }
    Ok(())
}

/// Adds the faults of an entry of the section of this name, if it is a coil rule.
fn add_rule(faults: &mut Faults<'_, '_>, section: &[u8], entry: &Entry) -> Result<(), AllocError>
    ensures { OnOk result (Gains faults.old faults.new (faults_of_rule faults.old section.now entry.now)) }
{
    match as_coil_rule(section, entry) {
        Some(rule) => add_coil_rule(faults, rule),
        None => Ok(()),
    }
}

/// Adds the faults of a coil rule. What it has no place for is not at fault, at whatever place. Most
/// rules hold no coil: then there are only two settings to put in order.
fn add_coil_rule(faults: &mut Faults<'_, '_>, rule: CoilRule<'_>) -> Result<(), AllocError>
    ensures { OnOk result (Gains faults.old faults.new (faults_of_coil_rule faults.old rule.entry)) }
{
    let coil = (rule.form.coil, NamedThing::Coil(Some(rule.coil)));
    let switch_place = rule.form.switch.unwrap_or(0);
    let switch = (switch_place, NamedThing::Switch(rule.switch));
    if rule.hold_coil.is_none() {
        add_as_written(faults, rule.order, &[coil, switch])?;
        return Ok(());
    }
    let hold_place = rule.form.hold_coil.unwrap_or(0);
    let hold_coil = NamedThing::HoldCoil(rule.name.line, rule.hold_coil);
    add_as_written(faults, rule.order, &[coil, (hold_place, hold_coil), switch])?;
    Ok(())
}

/// Adds the fault of the coil that an entry at this line holds, if it holds one.
pub(crate) fn add_hold_coil(
    faults: &mut Faults<'_, '_>,
    line: u32,
    hold: Option<NameAt<'_>>,
) -> Result<(), AllocError>
    ensures { OnOk result (Gains faults.old faults.new (faults_of_hold_coil faults.old line hold.entry)) }
{
    match hold {
        Some(hold) => {
            let coil = faults.definitions.coil(hold.text);
            add_hold(faults, line, hold, coil)
        }
        None => Ok(()),
    }
}

/// Adds the fault of a coil that is held: there is no such coil, or it may not be held.
fn add_hold(
    faults: &mut Faults<'_, '_>,
    line: u32,
    hold: NameAt<'_>,
    coil: Option<Coil<'_>>,
) -> Result<(), AllocError>
    ensures { OnOk result (Gains faults.old faults.new (faults_by_hold_limits faults.old line hold.entry coil.entry)) }
{
    match coil {
        Some(coil) => {
            let is_refused = !coil.may_hold;
            let place = NameAt {
                line,
                text: hold.text,
            };
            add_if(faults, is_refused, RowFaultKind::HoldNotAllowed, place)
        }
        None => add_if(faults, true, RowFaultKind::Name, hold),
    }
}
