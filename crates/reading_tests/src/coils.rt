//! Coils, coil players, flippers and autofire coils of bundles, by the names of their settings.

use crate::pen::Pen;
use mpf_config::{
    CoilRule, KeyedValues, RuleKind, Section, as_coil, as_coil_item, as_coil_player, as_coil_rule,
};
use mpf_tables::tables::{COIL_PLAYER_NAME, COILS_NAME};

/// Texts, and what is read of them. A coil is shown by its name, the length of its pulse and the greatest
/// one, the power of its pulse and the greatest one, whether it may be held, the power with which it is held
/// and the greatest one. A coil player is shown by its event, and then what each coil does; a flipper and an
/// autofire coil by its name, its coils and its switch, and its events.
pub(crate) const COILS: &str = "\
@¶coils:¶  a:¶ => coils¶ a@3; 10 10 1000 1000 false 0 0;¶
@¶coils:¶  b:¶    default_pulse_ms: 30¶    allow_enable: yes¶  c:¶    default_hold_power: 0.25¶  d: {default_hold_power: 0.25, allow_enable: yes, max_pulse_ms: 5}¶  e: {default_hold_power: 0, max_hold_power: 0.5}¶  f: {max_hold_power: 30%, allow_enable: on}¶ => coils¶ b@3; 30 30 1000 1000 true 1000 1000;¶ c@6; 10 10 1000 1000 true 250 250;¶ d@8; 10 5 1000 1000 true 250 1000;¶ e@9; 10 10 1000 1000 false 0 500;¶ f@10; 10 10 1000 1000 true 300 300;¶
@¶coils:¶  g:¶    default_pulse_power: 0.5¶    max_pulse_power: 25%¶    max_pulse_ms: 1s¶    default_hold_power: 100%¶    max_hold_power: 0¶ => coils¶ g@3; 10 1000 500 250 true 1000 0;¶
@¶modes: m¶coil_player:¶  go:¶    a: pulse¶    b: {action: enable, hold_power: 0.5}¶  halt: {b: {action: disable, pulse_ms: 7, pulse_power: 0}}¶@m¶coil_player:¶  go: {a: enable}¶ => modes¶ m@2¶coil_player¶ go@4; a@5 Pulse None None None; b@6 Enable None None Some(500);¶ halt@7; b@7 Disable Some(7) Some(0) None;¶m: 100 true true;;;¶coil_player¶ go@3; a@3 Enable None None None;¶
@¶flippers:¶  f:¶    activation_switch: s¶    main_coil: m¶  g:¶    main_coil: m¶    hold_coil: h¶    activation_switch: t¶    enable_events: a b¶    disable_events:¶autofire_coils:¶  p:¶    coil: c¶    switch: s¶    disable_events: d¶ => flippers¶ f@3; m@5 - s@4; ball_started@0; ball_will_end@0;¶ g@6; m@7 h@8 t@9; a@10 b@10;;¶autofire_coils¶ p@13; c@14 s@15; ball_started@0; d@16;¶
@¶coil_player:¶  go{current_player.x>1}: {a: pulse}¶flippers:¶  f:¶    activation_switch: s¶    main_coil: m¶    disable_events: b{ current_player.x < 2 }¶ => coil_player¶ go{x Greater 1}@3; a@3 Pulse None None None;¶flippers¶ f@5; m@7 - s@6; ball_started@0; b{x Less 2}@8;¶
@¶flippers:¶  f:¶    main_coil: m¶ => error 7 Missing config/config.yaml 3 activation_switch¶
@¶modes: m¶@m¶flippers:¶ => error 4 UnknownSection modes/m/config/m.yaml 2 flippers¶
";

fn show_coils(pen: &mut Pen, section: &Section) {
    for entry in section.entries_of(COILS_NAME) {
        let coil = as_coil(entry);
        pen.entry(coil.name);
        pen.also(coil.pulse_ms);
        pen.also(coil.max_pulse_ms);
        pen.also(coil.pulse_power);
        pen.also(coil.max_pulse_power);
        pen.also(coil.may_hold);
        pen.also(coil.hold_power);
        pen.also(coil.max_hold_power);
        pen.put(";\n");
    }
}

fn show_items(pen: &mut Pen, items: &[KeyedValues]) {
    for keyed in items {
        let item = as_coil_item(keyed);
        pen.put(" ");
        pen.name(item.coil);
        pen.shown(item.action);
        pen.shown(item.pulse_ms);
        pen.shown(item.pulse_power);
        pen.shown(item.hold_power);
        pen.put(";");
    }
}

fn show_coil_players(pen: &mut Pen, section: &Section) {
    for entry in section.players_of(COIL_PLAYER_NAME) {
        let player = as_coil_player(entry);
        pen.put(" ");
        pen.handled(player.event);
        pen.put(";");
        show_items(pen, player.items);
        pen.put("\n");
    }
}

fn show_rule(pen: &mut Pen, rule: CoilRule<'_>) {
    pen.entry(rule.name);
    pen.name_at(Some(rule.coil));
    if let RuleKind::Flipper = rule.form.kind {
        pen.name_at(rule.hold_coil);
    }
    pen.name_at(rule.switch);
    pen.events(rule.enables);
    pen.events(rule.disables);
    pen.put(";\n");
}

fn show_rules(pen: &mut Pen, section: &Section) {
    for entry in section.content.entries() {
        if let Some(rule) = as_coil_rule(&section.name, entry) {
            show_rule(pen, rule);
        }
    }
}

/// Adds the coils, the coil players, the flippers and the autofire coils of a section.
pub(crate) fn show_coil_sections(pen: &mut Pen, section: &Section) {
    show_coils(pen, section);
    show_coil_players(pen, section);
    show_rules(pen, section);
}
