//! Bundles and their rows, faults and notes.

use crate::balls::{BALLS, show_ball_devices};
use crate::cases::{Subject, assert_rows};
use crate::coils::{COILS, show_coil_sections};
use crate::devices::{DEVICES, SAME_NAMES, show_device_sections};
use crate::game::{GAMES, show_game, show_variables};
use crate::pen::Pen;
use crate::saves::{SAVES, show_save_sections};
use crate::shots::{SHOTS, show_shot_sections};
use mpf_config::{
    Config, ConfigFault, MODES_NAME, ModeText, Note, Section, as_event_player, as_switch,
    listed_modes, mode_names, mode_settings, read_bundle, write_fault, write_note,
};
use mpf_tables::tables::{EVENT_PLAYER_NAME, SWITCHES_NAME};
use std::test::Fail;

// Lines of a machine text behind its version line, and their rows: a switch's name, its contact and
// debounce, its tags and what is posted as it becomes active and inactive, an event's name and what it
// posts. Each name is written with its line. Then those that
// have a fault, and the line that it is printed as.
const MACHINES: &str = "\
switches:¶  s_left:¶    number: 1¶  s.b-2:¶event_player:¶  s_left_active: a, b¶  x:¶    c¶  number:¶ => switches¶ s_left@3; NormallyOpen Auto;;;;¶ s.b-2@5; NormallyOpen Auto;;;;¶event_player¶ s_left_active@7; a@7 b@7;¶ x@8; c@9;¶ number@10;;¶
switches:¶  a:¶    events_when_deactivated: e¶    type: NC¶    tags: b, c¶    debounce: quick¶    events_when_activated:¶      d¶    label: g h/¶  b:¶    debounce: normal¶    type: NO¶  c:¶    debounce: auto¶ => switches¶ a@3; NormallyClosed Quick; b@6 c@6; d@9; e@4;¶ b@11; NormallyOpen Normal;;;;¶ c@14; NormallyOpen Auto;;;;¶
event_player:¶  a: b,, c\td ,¶ => event_player¶ a@3; b@3 c@3 d@3;¶
switches:¶  a:¶  a:¶ => error 3 Yaml config/config.yaml 4 DuplicateKey¶
\tswitches:¶ => error 3 Yaml config/config.yaml 2 Tab¶
a¶ => error 6 BadValue config/config.yaml 2 -¶
switches:¶coil:¶  a: b¶ => error 4 UnknownSection config/config.yaml 3 coil¶
switches: a¶ => error 6 BadValue config/config.yaml 2 switches¶
switches:¶  a b:¶ => error 6 BadValue config/config.yaml 3 a b¶
switches:¶  a: b¶ => error 6 BadValue config/config.yaml 3 a¶
switches:¶  a:¶    x: 1¶    coil: b¶ => error 5 UnknownSetting config/config.yaml 5 coil¶
switches:¶  a:¶    type: no¶    tags: b/¶ => error 6 BadValue config/config.yaml 4 type¶
switches:¶  a:¶    tags:¶      b/¶    debounce:¶ => error 6 BadValue config/config.yaml 4 tags¶
switches:¶  a:¶    debounce:¶      b: c¶ => error 6 BadValue config/config.yaml 4 debounce¶
event_player:¶  a{current_player.b==1}: c¶  a{ current_player.b != 1 }:¶ => event_player¶ a{b Equal 1}@3; c@3;¶ a{b NotEqual 1}@4;;¶
event_player:¶  a{b==1}: c¶ => error 6 BadValue config/config.yaml 3 a{b==1}¶
event_player:¶  a:¶    b/c¶ => error 6 BadValue config/config.yaml 3 a¶
event_player:¶  a:¶    b: c¶ => error 6 BadValue config/config.yaml 3 a¶
\"a\\nyes\":¶ => error 4 UnknownSection config/config.yaml 2 a\\x0ayes¶
switches:¶  a:¶    \"b\\n\\tyes\": c¶ => error 5 UnknownSetting config/config.yaml 4 b\\x0a\\x09yes¶
event_player:¶  a: b{c, d}¶ => error 6 BadValue config/config.yaml 3 a¶
switches:¶  a:¶event_player:¶  b: c, d/¶ => error 6 BadValue config/config.yaml 5 b¶
switches:¶  a:¶event_player:¶  b: c, d¶ => switches¶ a@3; NormallyOpen Auto;;;;¶event_player¶ b@5; c@5 d@5;¶
switches:¶  a:¶event_player:¶  b: c, d/¶ => error 6 BadValue config/config.yaml 5 b¶
event_player:¶  a: «1024 b,» => event_player¶ a@3;«1024  b@3»;¶
event_player:¶  a: «1025 b/ » => error 9 Limit config/config.yaml 3 a¶
";

// Bundles and the lines that their faults are printed as; then those that have rows, and their notes.
const BUNDLES: &str = "\
\u{20}=> error 1 Bundle - 1 -¶
#config_version=6¶@ config/config.yaml¶ => error 1 Bundle - 1 -¶
@config/config.yaml¶ => error 1 Bundle - 1 -¶
@¶ => error 1 Bundle - 1 -¶
@ other¶a¶¶@x¶ => error 1 Bundle - 4 -¶
@ config/config.yaml¶#config_version=6¶@ config/config.yaml¶ => error 8 Duplicate config/config.yaml 1 -¶
@ a¶@ b¶@ a¶@ config/config.yaml¶#config_version=6¶@ b¶ => error 8 Duplicate a 1 -¶
@ a¶@ a¶@ config/config.yaml¶ => error 2 Version config/config.yaml 1 -¶
@ other¶#config_version=6¶ => error 1 Bundle - 1 -¶
@ config/config.yaml => error 2 Version config/config.yaml 1 -¶
@ config/config.yaml¶¶#config_version=6¶ => error 2 Version config/config.yaml 1 -¶
@\tconfig/config.yaml \r¶#config_version=6 \t\r¶b¶ => error 6 BadValue config/config.yaml 2 -¶
@ config/config.yaml¶#config_version=6¶ =>\u{20}
@  modes/m/config/m.yaml ¶@ ¶#config_version=6¶coils:¶@\tconfig/config.yaml\r¶#config_version=6¶mpf-mc:¶switches:¶  a:¶lights: b¶@ c d => switches¶ a@4; NormallyOpen Auto;;;;¶note config/config.yaml 2 skipped mpf-mc¶note config/config.yaml 5 skipped lights¶note modes/m/config/m.yaml 0 unlisted modes/m/config/m.yaml¶note  0 unlisted ¶note c d 0 unlisted c d¶
@ config/config.yaml¶#config_version=6¶@ a\u{1b}[2J\u{1f}\u{7f} \u{80}¶ => note a\\x1b[2J\\x1f\\x7f \u{80} 0 unlisted a\\x1b[2J\\x1f\\x7f \u{80}¶
";

// Texts, and what is read of them or the line of their fault. The section `modes` is shown by the names
// that it lists, and a mode by its priority, whether it needs a game, whether it stops with the ball, whether it
// holds the end of the ball, and what starts and stops it; its sections stand below.
const MODES: &str = "\
@¶modes: lo, hi¶@hi¶mode:¶  priority: 200¶  game_mode: no¶  start_events: a, b¶event_player:¶  x: y¶@lo¶mode:¶  stop_on_ball_end: no¶  stop_events:¶    - c¶    - d¶ => modes¶ lo@2 hi@2¶lo: 100 true false;; c@5 d@6;¶mode¶hi: 200 false true; a@5 b@5;;¶mode¶event_player¶ x@7; y@7;¶
@¶modes: a¶event_player:¶  x: y¶@a¶event_player:¶  x: z¶ => modes¶ a@2¶event_player¶ x@4; y@4;¶a: 100 true true;;;¶event_player¶ x@3; z@3;¶
@a¶@b.c-d_e¶@¶modes: b.c-d_e, a¶ => modes¶ b.c-d_e@2 a@2¶b.c-d_e: 100 true true;;;¶a: 100 true true;;;¶
@¶modes: playfield, default, config¶@default¶@config¶@playfield¶ => modes¶ playfield@2 default@2 config@2¶playfield: 100 true true;;;¶default: 100 true true;;;¶config: 100 true true;;;¶
@¶modes: «64 a»¶@«64 a»¶ => modes¶ «64 a»@2¶«64 a»: 100 true true;;;¶
@¶modes: «65 a»¶ => error 6 BadValue config/config.yaml 2 modes¶
@¶modes:¶ => modes¶¶
@¶modes:¶@a¶nothing:¶ => modes¶¶note modes/a/config/a.yaml 0 unlisted modes/a/config/a.yaml¶
@¶modes: []¶ => modes¶¶
@¶modes:¶  a, a¶ => error 8 Duplicate config/config.yaml 3 a¶
@¶modes:¶  - a¶  - b¶  - a¶ => error 8 Duplicate config/config.yaml 5 a¶
@¶modes:¶  - a¶  - machine¶ => error 6 BadValue config/config.yaml 2 modes¶
@¶modes:¶  - a¶  - b/¶ => error 6 BadValue config/config.yaml 2 modes¶
@¶modes: [a b]¶ => error 6 BadValue config/config.yaml 2 modes¶
@¶modes: {a: b}¶ => error 6 BadValue config/config.yaml 2 modes¶
@¶modes:¶  a: b¶ => error 6 BadValue config/config.yaml 2 modes¶
@¶modes: a, a, machine¶ => error 8 Duplicate config/config.yaml 2 a¶
@¶modes: a, machine, a¶ => error 6 BadValue config/config.yaml 2 modes¶
@¶modes: «65 a »¶ => error 9 Limit config/config.yaml 2 modes¶
@¶modes: «65 machine »¶ => error 9 Limit config/config.yaml 2 modes¶
@¶modes: [«1025 a/, »]¶ => error 9 Limit config/config.yaml 2 modes¶
@¶modes: [«65 a/, »]¶ => error 9 Limit config/config.yaml 2 modes¶
@¶modes: [«64 a/, »]¶ => error 6 BadValue config/config.yaml 2 modes¶
@¶modes: [«64 m№, »[a]]¶ => error 9 Limit config/config.yaml 2 modes¶
@¶modes: [«63 m№, »[a]]¶ => error 6 BadValue config/config.yaml 2 modes¶
@¶modes: «64 m№, »b/¶ => error 9 Limit config/config.yaml 2 modes¶
@¶modes: «65 m№, »¶ => error 9 Limit config/config.yaml 2 modes¶
@¶modes: «64 m№, »¶ => modes¶«64  m№@2»¶«64 note config/config.yaml 2 absent m№¶»
@¶modes: «64 m№, »¶«64 @m№¶» => modes¶«64  m№@2»¶«64 m№: 100 true true;;;¶»
@¶modes: a¶@a¶mode:¶  priority: 1000000¶  use_wait_queue: Off¶ => modes¶ a@2¶a: 1000000 true true;;;¶mode¶
@¶modes: a¶@a¶mode:¶  priority: 0¶  use_wait_queue: FALSE¶ => modes¶ a@2¶a: 0 true true;;;¶mode¶
@¶modes: a¶@a¶mode:¶  priority: 1000001¶ => error 6 BadValue modes/a/config/a.yaml 3 priority¶
@¶modes: a¶@a¶mode:¶  priority: -1¶ => error 6 BadValue modes/a/config/a.yaml 3 priority¶
@¶modes: a¶@a¶mode:¶  use_wait_queue: yes¶  start_events: ball_ending¶ => modes¶ a@2¶a: 100 true true holds; ball_ending@4;;¶mode¶
@¶modes: a¶@a¶mode:¶  start_events: ball_ending{current_player.score>1}¶  stop_on_ball_end: no¶  use_wait_queue: True¶ => modes¶ a@2¶a: 100 true false holds; ball_ending{score Greater 1}@3;;¶mode¶
@¶modes: a¶@a¶mode:¶  game_mode: no¶  use_wait_queue: ON¶  start_events:¶    - ball_ending{ current_player.b == 1 }¶    - ball_ending¶  stop_events: x¶ => modes¶ a@2¶a: 100 false true holds; ball_ending{b Equal 1}@6 ball_ending@7; x@8;¶mode¶
@¶modes: a¶@a¶mode:¶  use_wait_queue: no¶  start_events: ball_ending, x¶ => modes¶ a@2¶a: 100 true true; ball_ending@4 x@4;;¶mode¶
@¶modes: a, b¶@a¶mode:¶  use_wait_queue: yes¶  start_events: ball_ending¶@b¶mode:¶  start_events: x¶ => modes¶ a@2 b@2¶a: 100 true true holds; ball_ending@4;;¶mode¶b: 100 true true; x@3;;¶mode¶
@¶modes: a¶@a¶lights:¶mode:¶  use_wait_queue: yes¶ => error 6 BadValue modes/a/config/a.yaml 3 start_events¶
@¶modes: a¶@a¶mode: {use_wait_queue: on}¶ => error 6 BadValue modes/a/config/a.yaml 2 start_events¶
@¶modes: a¶@a¶mode:¶  use_wait_queue: yes¶¶  start_events:¶ => error 6 BadValue modes/a/config/a.yaml 5 start_events¶
@¶modes: a¶@a¶mode:¶  start_events: []¶  use_wait_queue: yes¶ => error 6 BadValue modes/a/config/a.yaml 3 start_events¶
@¶modes: a¶@a¶mode:¶  priority: 7¶  start_events:¶    - ball_ending¶    - x¶  use_wait_queue: yes¶ => error 6 BadValue modes/a/config/a.yaml 4 start_events¶
@¶modes: a¶@a¶mode:¶  use_wait_queue: true¶  \"start_events\": x, ball_ending¶ => error 6 BadValue modes/a/config/a.yaml 4 start_events¶
@¶modes: a¶@a¶mode:¶  use_wait_queue: yes¶  start_events: Ball_ending¶ => error 6 BadValue modes/a/config/a.yaml 4 start_events¶
@¶modes: a¶@a¶mode:¶  use_wait_queue: yes¶  start_events: ball_ending_x¶ => error 6 BadValue modes/a/config/a.yaml 4 start_events¶
@¶modes: a¶@a¶mode:¶  use_wait_queue: yes¶  stop_events: ball_ending¶ => error 6 BadValue modes/a/config/a.yaml 2 start_events¶
@¶modes: a¶@a¶mode:¶  use_wait_queue: yes¶  start_events: x¶  priority: -1¶ => error 6 BadValue modes/a/config/a.yaml 5 priority¶
@¶modes: a¶@a¶mode:¶  use_wait_queue: yes¶event_player:¶  x: y/¶ => error 6 BadValue modes/a/config/a.yaml 2 start_events¶
@¶modes: a¶@a¶event_player:¶  x: y/¶mode:¶  use_wait_queue: yes¶ => error 6 BadValue modes/a/config/a.yaml 3 x¶
@¶modes: a, b¶@b¶mode:¶  use_wait_queue: yes¶@a¶switches:¶ => error 6 BadValue modes/b/config/b.yaml 2 start_events¶
@¶modes: a¶@a¶mode:¶  use_wait_queue: oFf¶ => error 6 BadValue modes/a/config/a.yaml 3 use_wait_queue¶
@¶modes: a¶@a¶mode:¶  start_events: x, y{current_player.score>1}¶  stop_events: z{ current_player.ball == 2 }¶ => modes¶ a@2¶a: 100 true true; x@3 y{score Greater 1}@3; z{ball Equal 2}@4;¶mode¶
@¶modes: a¶@a¶mode:¶  start_events: x, y{score>1}¶ => error 6 BadValue modes/a/config/a.yaml 3 start_events¶
@¶modes: a¶@a¶mode:¶  stop_events:¶    - x¶    - y/¶ => error 6 BadValue modes/a/config/a.yaml 3 stop_events¶
@¶modes: a¶@a¶mode:¶  stop_events: [«1025 x, »]¶ => error 9 Limit modes/a/config/a.yaml 3 stop_events¶
@¶modes: a¶@a¶mode:¶  code: x¶ => error 5 UnknownSetting modes/a/config/a.yaml 3 code¶
@¶modes: a¶@a¶mode: x¶ => error 6 BadValue modes/a/config/a.yaml 2 mode¶
@¶modes: a¶@a¶mode: []¶ => error 6 BadValue modes/a/config/a.yaml 2 mode¶
@¶modes: a¶@a¶event_player:¶  x: y¶  go:¶    - y¶    - z/¶ => error 6 BadValue modes/a/config/a.yaml 4 go¶
@¶modes: a¶@a¶¶- b¶ => error 6 BadValue modes/a/config/a.yaml 3 -¶
@¶modes: a¶@a¶b¶ => error 6 BadValue modes/a/config/a.yaml 2 -¶
@¶modes: a¶@a¶\tmode:¶ => error 3 Yaml modes/a/config/a.yaml 2 Tab¶
@¶modes: a¶@a¶mode:¶lights:¶mode:¶ => error 3 Yaml modes/a/config/a.yaml 4 DuplicateKey¶
@¶modes: a¶@a¶modes: b¶ => error 4 UnknownSection modes/a/config/a.yaml 2 modes¶
@¶modes: a¶@a¶mode:¶switches:¶ => error 4 UnknownSection modes/a/config/a.yaml 3 switches¶
@¶modes: a¶@a¶coils: x¶ => error 4 UnknownSection modes/a/config/a.yaml 2 coils¶
@¶mode:¶modes: a¶ => error 4 UnknownSection config/config.yaml 2 mode¶
@¶modes: a, b¶@b¶coils:¶@a¶switches:¶ => error 4 UnknownSection modes/b/config/b.yaml 2 coils¶
@¶modes: a, b¶@a¶switches:¶@b¶coils:¶ => error 4 UnknownSection modes/a/config/a.yaml 2 switches¶
@a¶switches:¶@¶modes: a¶coil:¶ => error 4 UnknownSection config/config.yaml 3 coil¶
@b¶switches:¶@a¶coils:¶@¶modes: a¶ => error 4 UnknownSection modes/a/config/a.yaml 2 coils¶
@a¶@b¶@a¶coils:¶@¶modes: a¶ => error 8 Duplicate modes/a/config/a.yaml 1 -¶
@a¶coils:¶@a¶@¶modes: a¶ => error 4 UnknownSection modes/a/config/a.yaml 2 coils¶
@b¶@b¶@a¶coils:¶@¶modes: a¶ => error 8 Duplicate modes/b/config/b.yaml 1 -¶
@a¶coils:¶@b¶@b¶@¶modes: a¶ => error 4 UnknownSection modes/a/config/a.yaml 2 coils¶
@a¶@a¶@¶modes: a, a¶ => error 8 Duplicate config/config.yaml 2 a¶
@ modes/a/config/a.yaml¶#config_version=5¶@¶modes: a¶ => error 2 Version modes/a/config/a.yaml 1 -¶
@a¶@ modes/a/config/a.yaml¶@¶modes: a¶ => error 8 Duplicate modes/a/config/a.yaml 1 -¶
@¶modes: a, b¶@ modes/a/config/b.yaml¶x¶@ modes/A/config/A.yaml¶ => modes¶ a@2 b@2¶note config/config.yaml 2 absent a¶note config/config.yaml 2 absent b¶note modes/a/config/b.yaml 0 unlisted modes/a/config/b.yaml¶note modes/A/config/A.yaml 0 unlisted modes/A/config/A.yaml¶
@¶lights:¶modes:¶  - a¶  - b¶¶  - c¶ => modes¶ a@4 b@5 c@7¶note config/config.yaml 2 skipped lights¶note config/config.yaml 4 absent a¶note config/config.yaml 5 absent b¶note config/config.yaml 7 absent c¶
@¶modes:¶  b, a¶shows:¶ => modes¶ b@3 a@3¶note config/config.yaml 3 absent b¶note config/config.yaml 3 absent a¶note config/config.yaml 4 skipped shows¶
@¶{lights: 1, modes: [c, a, b], shows: 2}¶@a¶ => modes¶ c@2 a@2 b@2¶a: 100 true true;;;¶note config/config.yaml 2 skipped lights¶note config/config.yaml 2 absent c¶note config/config.yaml 2 absent b¶note config/config.yaml 2 skipped shows¶
@z¶@b¶shows:¶lights:¶@y¶lights:¶@a¶mode:¶assets:¶@¶sounds:¶modes: a, c, b¶bcp:¶@x¶ => modes¶ a@3 c@3 b@3¶a: 100 true true;;;¶mode¶b: 100 true true;;;¶note config/config.yaml 2 skipped sounds¶note config/config.yaml 3 absent c¶note config/config.yaml 4 skipped bcp¶note modes/a/config/a.yaml 3 skipped assets¶note modes/b/config/b.yaml 2 skipped shows¶note modes/b/config/b.yaml 3 skipped lights¶note modes/z/config/z.yaml 0 unlisted modes/z/config/z.yaml¶note modes/y/config/y.yaml 0 unlisted modes/y/config/y.yaml¶note modes/x/config/x.yaml 0 unlisted modes/x/config/x.yaml¶
";

// Machine texts and the names of the modes that they list, or the line of their fault.
const MODE_NAMES: &str = "\
#config_version=6¶modes: lo, hi.2, a-b¶ => lo¶hi.2¶a-b¶
#config_version=6¶shows: x¶modes:¶  - c¶  - b¶switches:¶  a:¶ => c¶b¶
#config_version=6¶modes: «64 m№, »¶ => «64 m№¶»
#config_version=6¶modes:¶ =>\u{20}
#config_version=6 =>\u{20}
\u{20}=> error 2 Version config/config.yaml 1 -¶
@ config/config.yaml¶#config_version=6¶ => error 2 Version config/config.yaml 1 -¶
#config_version=6¶modes: a¶@ modes/a/config/a.yaml¶ => error 3 Yaml config/config.yaml 3 NotInSubset¶
#config_version=6¶modes: a¶- b¶ => error 3 Yaml config/config.yaml 3 NotInSubset¶
#config_version=6¶- modes¶ => error 6 BadValue config/config.yaml 2 -¶
#config_version=6¶modes: a¶switches: b¶ => error 6 BadValue config/config.yaml 3 switches¶
#config_version=6¶modes: a¶mode:¶ => error 4 UnknownSection config/config.yaml 3 mode¶
#config_version=6¶modes: a, b c/¶ => error 6 BadValue config/config.yaml 2 modes¶
#config_version=6¶modes: {a: b}¶ => error 6 BadValue config/config.yaml 2 modes¶
#config_version=6¶modes:¶  - a¶  - a¶ => error 8 Duplicate config/config.yaml 4 a¶
#config_version=6¶modes: a, a, machine¶ => error 8 Duplicate config/config.yaml 2 a¶
#config_version=6¶modes: a, machine, a¶ => error 6 BadValue config/config.yaml 2 modes¶
#config_version=6¶modes: «65 a »¶ => error 9 Limit config/config.yaml 2 modes¶
#config_version=6¶modes: «65 machine »¶ => error 9 Limit config/config.yaml 2 modes¶
#config_version=6¶modes: [«1025 a/, »]¶ => error 9 Limit config/config.yaml 2 modes¶
#config_version=6¶modes: [«65 a/, »]¶ => error 9 Limit config/config.yaml 2 modes¶
";

fn show_switches(pen: &mut Pen, section: &Section) {
    for entry in section.entries_of(SWITCHES_NAME) {
        let row = as_switch(entry);
        pen.entry(row.name);
        pen.shown(row.contact);
        pen.shown(row.debounce);
        pen.put(";");
        pen.listed(row.tags);
        pen.listed(row.activation_events);
        pen.listed(row.deactivation_events);
        pen.put("\n");
    }
}

fn show_players(pen: &mut Pen, section: &Section) {
    for player in section.players_of(EVENT_PLAYER_NAME) {
        let row = as_event_player(player);
        pen.put(" ");
        pen.handled(row.event);
        pen.put(";");
        pen.listed(row.posts);
        pen.put("\n");
    }
}

fn show_section(pen: &mut Pen, section: &Section) {
    pen.bytes(&section.name);
    pen.put("\n");
    show_switches(pen, section);
    show_players(pen, section);
    show_coil_sections(pen, section);
    show_variables(pen, section);
    show_device_sections(pen, section);
    show_shot_sections(pen, section);
    show_ball_devices(pen, section);
    show_save_sections(pen, section);
}

fn show_sections(pen: &mut Pen, sections: &[Section]) {
    for section in sections {
        show_section(pen, section);
    }
}

fn show_machine(pen: &mut Pen, sections: &[Section]) {
    for section in sections {
        show_section(pen, section);
        show_game(pen, section, sections);
        if section.name.as_slice() == MODES_NAME {
            pen.names(listed_modes(sections));
            pen.put("\n");
        }
    }
}

fn show_mode(pen: &mut Pen, mode: &ModeText) {
    let settings = mode_settings(&mode.sections);
    pen.bytes(&mode.name);
    pen.put(":");
    pen.also(settings.priority);
    pen.also(settings.game);
    pen.also(settings.stops_with_ball);
    if settings.holds_ball_end {
        pen.put(" holds");
    }
    pen.events(settings.starts);
    pen.events(settings.stops);
    pen.put(";\n");
    show_sections(pen, &mode.sections);
}

fn show_modes(pen: &mut Pen, modes: &[ModeText]) {
    for mode in modes {
        show_mode(pen, mode);
    }
}

fn show_note(pen: &mut Pen, note: &Note) {
    let mut line = Vec::new(pen.alloc);
    if write_note(note, &mut line).is_err() {
        pen.lose();
    }
    pen.bytes(&line);
}

fn show_notes(pen: &mut Pen, notes: &[Note]) {
    for note in notes {
        show_note(pen, note);
    }
}

fn show_config(pen: &mut Pen, config: &Config) {
    show_machine(pen, &config.machine.sections);
    show_modes(pen, &config.modes);
    show_notes(pen, &config.notes);
}

// Adds the line of a fault.
fn show_fault(pen: &mut Pen, fault: &ConfigFault) {
    let ConfigFault::Bundle(fault) = fault else {
        return pen.lose();
    };
    let mut line = Vec::new(pen.alloc);
    if write_fault(fault, &mut line).is_err() {
        pen.lose();
    }
    pen.bytes(&line);
}

/// Adds the sections, modes and notes of a bundle, or its fault.
pub(crate) fn show_bundle(pen: &mut Pen, bundle: &[u8]) {
    match read_bundle(pen.alloc, bundle) {
        Ok(config) => show_config(pen, &config),
        Err(fault) => show_fault(pen, &fault),
    }
}

// Adds the name of a text, and the line with the version.
fn add_head(bundle: &mut Pen, mode: &str) {
    if mode.is_empty() {
        bundle.put("@ config/config.yaml");
    } else {
        bundle.put("@ modes/");
        bundle.put(mode);
        bundle.put("/config/");
        bundle.put(mode);
        bundle.put(".yaml");
    }
    bundle.put("\n#config_version=6\n");
}

// Adds a line, or the head of a text, if the line is `@M` or `@`.
fn add_line(bundle: &mut Pen, line: &str) {
    let mode = line.strip_prefix("@").unwrap_or(" ");
    if mode.starts_with(" ") {
        bundle.put(line);
        bundle.put("\n");
    } else {
        add_head(bundle, mode);
    }
}

fn add_lines(bundle: &mut Pen, lines: &str) {
    for line in lines.lines() {
        add_line(bundle, line);
    }
}

// Adds what is read of the bundle that is written.
fn show_written(pen: &mut Pen, bundle: &Pen) {
    show_bundle(pen, bundle.text.as_bytes());
    if bundle.is_lost {
        pen.lose();
    }
}

/// Adds the sections, modes and notes of texts that `Subject::Texts` tells, or their fault.
pub(crate) fn show_texts(pen: &mut Pen, texts: &str) {
    let mut bundle = Pen::new(pen.alloc);
    add_lines(&mut bundle, texts);
    show_written(pen, &bundle);
}

/// The same of a machine text behind its version line.
pub(crate) fn show_machine_text(pen: &mut Pen, text: &str) {
    let mut bundle = Pen::new(pen.alloc);
    add_head(&mut bundle, "");
    bundle.put(text);
    show_written(pen, &bundle);
}

fn show_lines(pen: &mut Pen, names: &[Vec<u8>]) {
    for name in names {
        pen.bytes(name);
        pen.put("\n");
    }
}

/// Adds the names of the modes that a machine text lists, or its fault.
pub(crate) fn show_mode_names(pen: &mut Pen, text: &[u8]) {
    match mode_names(pen.alloc, text) {
        Ok(names) => show_lines(pen, &names),
        Err(fault) => show_fault(pen, &fault),
    }
}

#[test]
fn bundles(rt: HostRuntime) {
    assert_rows(&rt, &Subject::Machine, MACHINES);
    assert_rows(&rt, &Subject::Bundle, BUNDLES);
    assert_rows(&rt, &Subject::Texts, MODES);
    assert_rows(&rt, &Subject::ModeNames, MODE_NAMES);
    assert_rows(&rt, &Subject::Texts, COILS);
    assert_rows(&rt, &Subject::Texts, DEVICES);
    assert_rows(&rt, &Subject::Texts, SAME_NAMES);
    assert_rows(&rt, &Subject::Texts, GAMES);
    assert_rows(&rt, &Subject::Texts, SHOTS);
    assert_rows(&rt, &Subject::Texts, BALLS);
    assert_rows(&rt, &Subject::Texts, SAVES);
}

#[test]
fn longest_bundle(rt: HostRuntime) -> Result<(), Fail> {
    let bundle = vec![in rt.alloc(); b'a'; 8_388_609]?;
    let mut found = Pen::new(rt.alloc());
    show_bundle(&mut found, &bundle);
    show_bundle(&mut found, &bundle[1..]);
    assert_eq!(rt; found.end(), "error 9 Limit - 1 -\nerror 1 Bundle - 1 -\n");
    Ok(())
}
