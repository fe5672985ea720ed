//! Texts that rows name, since several rows need them.

/// Each text is between its name and `(end)`:
///
/// - one switch, whose activation posts two events;
/// - two switches, of which the second is dearer when it becomes inactive;
/// - one switch, whose activation posts an event, which posts another one twice;
/// - two modes that start together, of which the one that is listed last has the higher priority;
/// - three machines in one bundle: a mode with a timer, a game with two ball devices, and a counter.
const NAMED: &str = "\
(one switch)
@ config/config.yaml
#config_version=6
switches:
  s_left:
    number: 1
event_player:
  s_left_active: a, b
(end)
(two switches)
@ config/config.yaml
#config_version=6
switches:
  s_left:
    number: 1
  s_right:
    number: 2
event_player:
  s_left_active: a
  s_right_inactive: a, b
(end)
(twice posted)
@ config/config.yaml
#config_version=6
switches:
  s_left:
    number: 1
event_player:
  s_left_active: a
  a: b, b
(end)
(priority order)
@ config/config.yaml
#config_version=6
modes: lo, hi
switches:
  s_go:
    number: 1
  s_x:
    number: 2
event_player:
  s_x_active: from_machine
@ modes/lo/config/lo.yaml
#config_version=6
mode:
  game_mode: no
  start_events: s_go_active
  priority: 100
event_player:
  s_x_active: from_lo
@ modes/hi/config/hi.yaml
#config_version=6
mode:
  game_mode: no
  start_events: s_go_active
  priority: 200
event_player:
  s_x_active: from_hi
(end)
(three machines)
@ config/config.yaml
#config_version=6
modes: m
game:
switches:
  s_b1:
    number: 1
  s_b2:
    number: 2
  s_b3:
    number: 3
  s_b4:
    number: 4
  s_b5:
    number: 5
  s_start:
    number: 6
    tags: start
  s_plunger:
    number: 7
  s_pf:
    number: 8
    tags: playfield_active
  s_go:
    number: 10
    debounce: quick
  s_stop:
    number: 11
    debounce: quick
  s_left:
    number: 12
coils:
  c_trough:
    number: 1
  c_plunger:
    number: 2
ball_devices:
  trough:
    ball_switches: s_b1, s_b2, s_b3, s_b4, s_b5
    eject_coil: c_trough
    tags: trough, home, drain
    eject_targets: plunger
  plunger:
    ball_switches: s_plunger
    eject_coil: c_plunger
counters:
  c:
    count_events: s_left_active
    count_complete_value: 2
@ modes/m/config/m.yaml
#config_version=6
mode:
  game_mode: no
  start_events: s_go_active
  stop_events: s_stop_active
timers:
  t:
    end_value: 3
    start_running: yes
(end)
";

/// The text behind this name; the text itself if it names none.
pub fn named(text: &str) -> &str {
    if !text.starts_with('(') {
        return text;
    }
    let (_, behind) = NAMED.split_once(text).unwrap_or(("", text));
    let (found, _) = behind.split_once("(end)\n").unwrap_or((behind, ""));
    found
}
