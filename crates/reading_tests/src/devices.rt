//! Logic blocks and timers of bundles, by the names of their settings.

use crate::pen::Pen;
use machine_settings::BlockSettings;
use mpf_config::{
    BlockEvents, Entry, Fields, Section, as_control, as_counter, as_step_block, as_timer,
};
use mpf_tables::tables::{ACCRUALS_NAME, COUNTERS_NAME, SEQUENCES_NAME, TIMERS_NAME};

/// Texts, and what is read of them. A counter is shown by its name, the events that it counts, its value
/// at first, its interval, its end, its direction and its window; an accrual or a sequence by its name and
/// steps. Then come whether completing resets and disables it, whether it is kept for each player, and its
/// lists. A timer is shown by its name, its value at first, its end, its direction, its interval, whether
/// it runs at first and whether it starts again; and then what controls it.
pub(crate) const DEVICES: &str = "\
@¶counters:¶  c:¶    count_events: a, b¶  d:¶    count_events:¶    starting_count: 9¶    count_interval: 2¶    count_complete_value: -1¶    direction: down¶    multiple_hit_window: 1s¶    enable_events: e¶    disable_events: f¶    reset_events: g¶    restart_events: h¶    events_when_hit: i¶    events_when_complete: j k¶ => counters¶ c@3; a@4 b@4; 0 1 None Up 0; true true false;;;;;;;¶ d@5;; 9 2 Some(-1) Down 1000; true true false; e@12; f@13; g@14; h@15; i@16; j@17 k@17;¶
@¶accruals:¶  q:¶    reset_on_complete: no¶    events:¶      - a, b¶      - c¶sequences:¶  r:¶    events:¶    disable_on_complete: no¶    persist_state: yes¶ => accruals¶ q@3; [ a@6 b@6][ c@7]; false true false;;;;;;;¶sequences¶ r@9;; true false true;;;;;;;¶
@¶modes: m¶@m¶timers:¶  t:¶  u:¶    direction: down¶  v:¶    direction: down¶    start_value: 3¶    end_value: -2¶    tick_interval: 5¶    start_running: yes¶    restart_on_complete: yes¶ => modes¶ m@2¶m: 100 true true;;;¶timers¶ t@3; 0 None Up 1000 false false;¶ u@4; 0 Some(0) Down 1000 false false;¶ v@6; 3 Some(-2) Down 5 true true;¶
@¶modes: m¶@m¶timers:¶  t:¶    control_events:¶      - {event: a, action: start}¶      - {event: b, action: stop}¶      - {event: c, action: pause}¶      - {event: d, action: reset}¶      - {event: e, action: restart}¶      - {event: f, action: add, value: 1}¶      - {event: g, action: subtract, value: 2}¶      - {event: h, action: jump, value: -3}¶ => modes¶ m@2¶m: 100 true true;;;¶timers¶ t@3; 0 None Up 1000 false false; a@5 Start 0; b@6 Stop 0; c@7 Pause 0; d@8 Reset 0; e@9 Restart 0; f@10 Add 1; g@11 Subtract 2; h@12 Jump -3;¶
@¶counters:¶  c:¶    count_events: a{current_player.x==1}, b¶    enable_events: c{current_player.x!=2}¶    disable_events: d{current_player.x<3}¶    reset_events: e{current_player.x<=-4}¶    restart_events: f{ current_player.x > 5 }, g¶sequences:¶  s:¶    events:¶      - a{current_player.y>=6}, b¶      - c¶ => counters¶ c@3; a{x Equal 1}@4 b@4; 0 1 None Up 0; true true false; c{x NotEqual 2}@5; d{x Less 3}@6; e{x LessOrEqual -4}@7; f{x Greater 5}@8 g@8;;;¶sequences¶ s@10; [ a{y GreaterOrEqual 6}@12 b@12][ c@13]; true true false;;;;;;;¶
@¶modes: m¶@m¶timers:¶  t:¶    control_events:¶      - {action: add, value: 7, event: \"a{current_player.x==1}\"}¶      - event: b{ current_player.x != 1 }¶        action: jump¶ => modes¶ m@2¶m: 100 true true;;;¶timers¶ t@3; 0 None Up 1000 false false; a{x Equal 1}@5 Add 7; b{x NotEqual 1}@6 Jump 0;¶
@¶timers:¶ => error 4 UnknownSection config/config.yaml 2 timers¶
@¶counters:¶  c:¶ => error 7 Missing config/config.yaml 3 count_events¶
@¶modes: m¶@m¶timers:¶  t:¶    control_events:¶      - event: a¶ => error 7 Missing modes/m/config/m.yaml 5 action¶
@¶modes: m¶@m¶timers:¶  playfield:¶ => error 6 BadValue modes/m/config/m.yaml 3 playfield¶
";

/// Texts that have entries of one section and name, or of two sections and one name, and what is read of them.
pub(crate) const SAME_NAMES: &str = "\
@¶modes: m¶counters:¶  c:¶    count_events: a¶@m¶counters:¶  b:¶    count_events: a¶  c:¶    count_events: d¶ => error 8 Duplicate modes/m/config/m.yaml 5 c¶
@m¶accruals:¶  c:¶    events:¶@¶modes: m¶accruals:¶  c:¶    events:¶ => error 8 Duplicate modes/m/config/m.yaml 3 c¶
@¶modes: a, b¶@b¶timers:¶  t:¶@a¶timers:¶  s:¶  t:¶ => error 8 Duplicate modes/a/config/a.yaml 4 t¶
@¶modes: m¶counters:¶  c:¶    count_events:¶sequences:¶  s:¶    events:¶@m¶sequences:¶  r:¶    events:¶  s:¶    events:¶counters:¶  c:¶    count_events:¶ => error 8 Duplicate modes/m/config/m.yaml 5 s¶
@¶modes: a, b, c¶@a¶timers:¶  t:¶@b¶timers:¶  t:¶@c¶coils:¶ => error 8 Duplicate modes/b/config/b.yaml 3 t¶
@¶modes: a, b, c¶@a¶timers:¶  t:¶@b¶coils:¶@c¶timers:¶  t:¶ => error 4 UnknownSection modes/b/config/b.yaml 2 coils¶
@¶modes: a, b¶@a¶timers:¶  t:¶@b¶timers:¶  t:¶  u:¶    start_value: x¶ => error 6 BadValue modes/b/config/b.yaml 5 start_value¶
@¶modes: x, «63 m№, »¶«63 @m№¶timers:¶  t№:¶»@x¶timers:¶  t63:¶ => error 8 Duplicate modes/x/config/x.yaml 3 t63¶
@¶modes: a, b¶@a¶sequences:¶  t:¶    events:¶@b¶timers:¶  t:¶ => modes¶ a@2 b@2¶a: 100 true true;;;¶sequences¶ t@3;; true true false;;;;;;;¶b: 100 true true;;;¶timers¶ t@3; 0 None Up 1000 false false;¶
@¶modes: a¶@a¶timers:¶  t:¶@b¶timers:¶  t:¶ => modes¶ a@2¶a: 100 true true;;;¶timers¶ t@3; 0 None Up 1000 false false;¶note modes/b/config/b.yaml 0 unlisted modes/b/config/b.yaml¶
";

fn show_block(pen: &mut Pen, settings: BlockSettings, block: BlockEvents<'_>) {
    pen.also(settings.reset_on_complete);
    pen.also(settings.disable_on_complete);
    pen.also(settings.persist);
    pen.events(block.enables);
    pen.events(block.disables);
    pen.events(block.resets);
    pen.events(block.restarts);
    pen.put(";");
    pen.listed(block.hit);
    pen.listed(block.complete);
    pen.put("\n");
}

fn show_counters(pen: &mut Pen, section: &Section) {
    for entry in section.entries_of(COUNTERS_NAME) {
        let counter = as_counter(entry);
        pen.entry(counter.name);
        pen.handlers(counter.counts);
        pen.put(";");
        let settings = counter.settings;
        pen.also(settings.start);
        pen.also(settings.interval);
        pen.shown(settings.complete);
        pen.shown(settings.direction);
        pen.also(settings.window);
        pen.put(";");
        show_block(pen, settings.block, counter.block);
    }
}

fn show_step_blocks(pen: &mut Pen, entries: &[Entry]) {
    for entry in entries {
        let block = as_step_block(entry);
        pen.entry(block.name);
        if !block.steps.is_empty() {
            pen.put(" ");
        }
        pen.steps(block.steps);
        pen.put(";");
        show_block(pen, block.settings, block.block);
    }
}

fn show_controls(pen: &mut Pen, controls: &[Fields]) {
    for map in controls {
        if let Some(control) = as_control(map) {
            pen.put(" ");
            pen.handled(control.event);
            pen.shown(control.action);
            pen.also(control.value);
            pen.put(";");
        }
    }
}

fn show_timers(pen: &mut Pen, section: &Section) {
    for entry in section.entries_of(TIMERS_NAME) {
        let timer = as_timer(entry);
        pen.entry(timer.name);
        let settings = timer.settings;
        pen.also(settings.start);
        pen.shown(settings.end);
        pen.shown(settings.direction);
        pen.also(settings.interval);
        pen.also(settings.start_running);
        pen.also(settings.restart);
        pen.put(";");
        show_controls(pen, timer.controls);
        pen.put("\n");
    }
}

/// Adds the logic blocks and the timers of a section.
pub(crate) fn show_device_sections(pen: &mut Pen, section: &Section) {
    show_counters(pen, section);
    show_step_blocks(pen, section.entries_of(ACCRUALS_NAME));
    show_step_blocks(pen, section.entries_of(SEQUENCES_NAME));
    show_timers(pen, section);
}
