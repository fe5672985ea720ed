//! What the entries of coils, coil players and coil rules give to a plan.

ghost use Rattle.std.specs.Prelude.{◌≡◌, ◌++◌, map, option_map, OnOk};
ghost use Rattle.mpf_sections.specs.TypedCoils.{coil_item_of};
ghost use Rattle.mpf_sections.specs.View.{coil_view, coil_item_view, keyed_view, name_at_view};
ghost use Rattle.plan_parts.specs.CoilEntries.{limits_of_coil, defaults_called, own_pulse, own_hold, deed_by};
ghost use Rattle.plan_parts.specs.CoilEntries.{autofire_lists, flipper_lists, item_effect, named_switches, rule_lists};
ghost use Rattle.plan_parts.specs.CoilEntries.{rule_settings};
ghost use Rattle.plan_parts.specs.Gives.{AddsDevice, Gives, coil_gives, coil_player_gives, coil_rule_in};
ghost use Rattle.plan_parts.specs.Gives.{defaults_view};
ghost use Rattle.plan_parts.specs.Lists.{with_last};
ghost use Rattle.plan_parts.specs.RowViews.{bytes_view};
ghost use Rattle.plan_parts.specs.View.{deed_view};

use crate::collect_handled::collect_acts;
use crate::effects::{Deed, Effect, EffectLists, do_in_next};
use crate::row_parts::{HandledName, RowHead, RowParts, add};
use machine_definitions::Definitions;
use mpf_config::{
    Coil, CoilAction, CoilItem, CoilPlayer, CoilRule, KeyedValues, NameAt, RuleKind, as_coil_item,
};
use plan_tables::devices::{Act, Settings};
use plan_tables::entries::CoilLimits;
use std::alloc::AllocError;

// ---- `coils`

/// A coil, with its limits.
pub(crate) fn collect_coil<'a>(parts: &mut RowParts<'a>, row: Coil<'a>)
    ensures { Gives parts.old parts.new (coil_gives row.entry) }
{
    parts.head = RowHead::Coil(&row.name.text, limits_of(row));
}

/// What a coil may be sent.
fn limits_of(coil: Coil<'_>) -> CoilLimits
    ensures { result ≡ limits_of_coil (coil_view coil.entry) }
{
    CoilLimits {
        max_pulse_ms: coil.max_pulse_ms,
        max_pulse_power: coil.max_pulse_power,
        max_hold_power: coil.max_hold_power,
        may_hold: coil.may_hold,
    }
}

// ---- `coil_player`

/// What a coil's entry says of pulses and holds of which nothing else is said, and whether the coil may be held. If no
/// coil has the name, there is no plan, and any numbers in their ranges serve.
#[derive(Clone, Copy)]
pub(crate) struct Defaults {
    pulse_ms: u32,
    pulse_power: u16,
    hold_power: u16,
    may_hold: bool,
}

pub(crate) fn defaults_of(definitions: &Definitions<'_>, name: &[u8]) -> Defaults
    ensures { defaults_view result ≡ defaults_called definitions.now.machine name.now }
{
    match definitions.coil(name) {
        Some(coil) => Defaults {
            pulse_ms: coil.pulse_ms,
            pulse_power: coil.pulse_power,
            hold_power: coil.hold_power,
            may_hold: coil.may_hold,
        },
        None => Defaults {
            pulse_ms: 1,
            pulse_power: 0,
            hold_power: 0,
            may_hold: false,
        },
    }
}

/// What an item does with its coil. What the item does not say, the coil's entry does.
fn deed_of(coil: Defaults, item: CoilItem<'_>) -> Deed
    ensures { deed_view result ≡ deed_by (defaults_view coil) (coil_item_view item.entry) item.entry.action }
{
    match item.action {
        CoilAction::Pulse => Deed::Pulse {
            ms: item.pulse_ms.unwrap_or(coil.pulse_ms),
            power: item.pulse_power.unwrap_or(coil.pulse_power),
        },
        CoilAction::Enable => Deed::Enable {
            power: item.hold_power.unwrap_or(coil.hold_power),
        },
        CoilAction::Disable => Deed::Disable,
    }
}

/// A handler of its event, which does what the items say.
pub(crate) fn collect_coil_player<'a>(
    parts: &mut RowParts<'a>,
    definitions: &Definitions<'_>,
    row: CoilPlayer<'a>,
) -> Result<(), AllocError>
    ensures { OnOk result (Gives parts.old parts.new (coil_player_gives definitions.now.machine row.entry)) }
{
    parts.head = RowHead::Handler(HandledName::as_written(row.event));
    parts.lists.begin()?;
    collect_items(&mut parts.lists, definitions, row.items)
}

/// The list that began last does what the items say.
fn collect_items<'a>(
    lists: &mut EffectLists<'a>,
    definitions: &Definitions<'_>,
    items: &'a [KeyedValues],
) -> Result<(), AllocError>
    ensures { OnOk result (lists.new ≡ with_last
        (map (item_effect definitions.now.machine) (map coil_item_of (map keyed_view items.now))) lists.old) }
{
    for pair in items {
        let item = as_coil_item(pair);
        let deed = deed_of(defaults_of(definitions, &item.coil.text), item);
        lists.add(Effect::Coil(&item.coil.text, deed))?;
    }
    Ok(())
}

// ---- coil rules

pub(crate) fn own_pulse(coil: Defaults) -> Deed
    ensures { deed_view result ≡ own_pulse (defaults_view coil) }
{
    Deed::Pulse {
        ms: coil.pulse_ms,
        power: coil.pulse_power,
    }
}

fn own_hold(coil: Defaults) -> Deed
    ensures { deed_view result ≡ own_hold (defaults_view coil) }
{
    Deed::Enable {
        power: coil.hold_power,
    }
}

/// A coil rule is a device: it listens to its switch, if it has one, and events enable and disable it.
pub(crate) fn collect_coil_rule<'a>(
    parts: &mut RowParts<'a>,
    definitions: &Definitions<'_>,
    row: CoilRule<'a>,
) -> Result<(), AllocError>
    ensures { OnOk result (AddsDevice parts.old parts.new (coil_rule_in definitions.now.machine row.entry)) }
{
    let settings = settings_of_rule(row.form.kind);
    parts.head = RowHead::Device(settings);
    listen_to(&mut parts.listens, row.switch)?;
    collect_acts(&mut parts.event_acts, Act::Enable, row.enables)?;
    collect_acts(&mut parts.event_acts, Act::Disable, row.disables)?;
    collect_lists(&mut parts.lists, definitions, row)
}

/// The settings of the device of a coil rule.
fn settings_of_rule(kind: RuleKind) -> Settings
    ensures { result ≡ rule_settings kind }
{
    match kind {
        RuleKind::Flipper => Settings::Flipper,
        RuleKind::Autofire => Settings::Autofire,
    }
}

/// A device listens to this switch, if there is one.
fn listen_to<'a>(listens: &mut Vec<&'a [u8]>, switch: Option<NameAt<'a>>) -> Result<(), AllocError>
    ensures { OnOk result (bytes_view listens.new.items
        ≡ bytes_view listens.old.items ++ named_switches (option_map name_at_view switch.entry)) }
{
    match switch {
        Some(switch) => add(listens, switch.text),
        None => Ok(()),
    }
}

/// The effect lists of a coil rule.
fn collect_lists<'a>(
    lists: &mut EffectLists<'a>,
    definitions: &Definitions<'_>,
    row: CoilRule<'a>,
) -> Result<(), AllocError>
    ensures { OnOk result (lists.new ≡ lists.old ++ rule_lists definitions.now.machine (name_at_view row.entry.coil)
        (option_map name_at_view row.entry.hold_coil) row.entry.form.kind) }
{
    match row.form.kind {
        RuleKind::Flipper => collect_flipper(lists, definitions, row.coil, row.hold_coil),
        RuleKind::Autofire => collect_autofire(lists, definitions, row.coil),
    }
}

/// The effect lists of a flipper.
fn collect_flipper<'a>(
    lists: &mut EffectLists<'a>,
    definitions: &Definitions<'_>,
    main: NameAt<'a>,
    hold: Option<NameAt<'a>>,
) -> Result<(), AllocError>
    ensures { OnOk result (lists.new ≡ lists.old
        ++ flipper_lists definitions.now.machine (name_at_view main.entry) (option_map name_at_view hold.entry)) }
{
    match hold {
        Some(hold) => collect_two_coils(lists, definitions, main, hold),
        None => collect_main_coil(lists, definitions, main),
    }
}

/// The effect lists of a flipper with a hold coil. To lift it, the main coil is pulsed, and the hold coil is enabled.
/// To let it fall, the hold coil is disabled.
fn collect_two_coils<'a>(
    lists: &mut EffectLists<'a>,
    definitions: &Definitions<'_>,
    main: NameAt<'a>,
    hold: NameAt<'a>,
) -> Result<(), AllocError>
    ensures { OnOk result (lists.new ≡ lists.old
        ++ flipper_lists definitions.now.machine (name_at_view main.entry) (Some (name_at_view hold.entry))) }
{
    let pulse = own_pulse(defaults_of(definitions, main.text));
    let enable = own_hold(defaults_of(definitions, hold.text));
    do_in_next(lists, Effect::Coil(main.text, pulse))?;
    lists.add(Effect::Coil(hold.text, enable))?;
    do_in_next(lists, Effect::Coil(hold.text, Deed::Disable))
}

/// The effect lists of a flipper without a hold coil. If its coil may be held, it is enabled to lift the flipper and
/// disabled to let it fall. Else it is pulsed to lift it, and nothing is done to let it fall.
fn collect_main_coil<'a>(
    lists: &mut EffectLists<'a>,
    definitions: &Definitions<'_>,
    main: NameAt<'a>,
) -> Result<(), AllocError>
    ensures { OnOk result (lists.new ≡ lists.old
        ++ flipper_lists definitions.now.machine (name_at_view main.entry) None) }
{
    let coil = defaults_of(definitions, main.text);
    if !coil.may_hold {
        do_in_next(lists, Effect::Coil(main.text, own_pulse(coil)))?;
        return lists.begin();
    }
    do_in_next(lists, Effect::Coil(main.text, own_hold(coil)))?;
    do_in_next(lists, Effect::Coil(main.text, Deed::Disable))
}

/// The effect list of an autofire coil.
fn collect_autofire<'a>(
    lists: &mut EffectLists<'a>,
    definitions: &Definitions<'_>,
    coil: NameAt<'a>,
) -> Result<(), AllocError>
    ensures { OnOk result (lists.new ≡ lists.old
        ++ autofire_lists definitions.now.machine (name_at_view coil.entry)) }
{
    let pulse = own_pulse(defaults_of(definitions, coil.text));
    do_in_next(lists, Effect::Coil(coil.text, pulse))
}
