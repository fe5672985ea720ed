//! Modes: bundles that are checked and verified.

use crate::checks::row::assert_rows;

const CHECKS: &str = "
=== priority order check
What starts a mode costs as its `will_start` does, of each mode that it starts. `mode_M_started` pays for a stop
that may have been kept, and the end of a ball for a stop of each mode.
--- check
(priority order)
=> Yes
yes
pinball-certificate 2
bound 12
switch s_go 12
switch s_x 5
event s_go_active 11
event s_go_inactive 1
event s_x_active 4
event s_x_inactive 1
event from_machine 1
event mode_lo_will_start 5
event mode_lo_starting 4
event mode_lo_started 3
event mode_lo_stopping 2
event mode_lo_stopped 1
event ball_ending 5
event from_lo 1
event mode_hi_will_start 5
event mode_hi_starting 4
event mode_hi_started 3
event mode_hi_stopping 2
event mode_hi_stopped 1
event from_hi 1

=== mode stop cycle
--- check
@ config/config.yaml
#config_version=6
modes: m
@ modes/m/config/m.yaml
#config_version=6
mode:
  stop_events: stop_m
event_player:
  mode_m_stopping: stop_m
=> Refused
fault 8 Cycle mode_m_stopping stop_m
no

=== mode that starts again by its end
--- check
@ config/config.yaml
#config_version=6
modes: m
event_player:
  mode_m_stopped: go
@ modes/m/config/m.yaml
#config_version=6
mode: {start_events: go}
=> Refused
fault 8 Cycle mode_m_stopped go mode_m_will_start mode_m_starting mode_m_started mode_m_stopping
no

=== kept stop check
--- check
@ config/config.yaml
#config_version=6
modes: m
switches:
  s_go:
    number: 1
    debounce: quick
  s_stop:
    number: 2
    debounce: quick
@ modes/m/config/m.yaml
#config_version=6
mode:
  game_mode: no
  start_events: s_go_active
  stop_events: mode_m_starting
=> Yes
yes
pinball-certificate 2
bound 9
switch s_go 9
switch s_stop 2
event s_go_active 8
event s_go_inactive 1
event s_stop_active 1
event s_stop_inactive 1
event mode_m_will_start 7
event mode_m_starting 6
event mode_m_started 3
event mode_m_stopping 2
event mode_m_stopped 1
event ball_ending 3

=== stop by its own started event check
--- check
@ config/config.yaml
#config_version=6
modes: m
switches:
  s_go:
@ modes/m/config/m.yaml
#config_version=6
mode:
  stop_on_ball_end: no
  start_events: s_go_active
  stop_events: mode_m_starting, mode_m_started
=> Yes
yes
pinball-certificate 2
bound 11
switch s_go 11
event s_go_active 10
event s_go_inactive 1
event mode_m_will_start 9
event mode_m_starting 8
event mode_m_started 5
event mode_m_stopping 2
event mode_m_stopped 1
event game_ending 3

=== mode without settings
Without its section `mode` a mode has the defaults: it runs only in a game, and stops with the ball.
--- check
@ config/config.yaml
#config_version=6
modes: m
@ modes/m/config/m.yaml
#config_version=6
=> Yes
yes
pinball-certificate 2
bound 0
event mode_m_will_start 5
event mode_m_starting 4
event mode_m_started 3
event mode_m_stopping 2
event mode_m_stopped 1
event ball_ending 3
event game_ending 3

=== certificate of a kept stop
--- verify
@ config/config.yaml
#config_version=6
modes: m
shows:
@ modes/m/config/m.yaml
#config_version=6
lights:
mode: {stop_events: mode_m_starting, stop_on_ball_end: no, game_mode: no}
--- certificate
pinball-certificate 1
bound 0
event mode_m_will_start 8
event mode_m_starting 6
event mode_m_started 3
event mode_m_stopping 2
event mode_m_stopped 1
=> Yes
note config/config.yaml 3 skipped shows
note modes/m/config/m.yaml 2 skipped lights
yes
bound 0

=== certificate that forgets a kept stop
--- verify
@ config/config.yaml
#config_version=6
modes: m
@ modes/m/config/m.yaml
#config_version=6
mode: {stop_events: mode_m_starting, stop_on_ball_end: no, game_mode: no}
--- certificate
pinball-certificate 1
bound 0
event mode_m_will_start 8
event mode_m_starting 6
event mode_m_started 2
event mode_m_stopping 2
event mode_m_stopped 1
=> Refused
fault 10 Certificate Short mode_m_started 3
no

=== costs of a mode that holds the end of the ball
--- check
@ config/config.yaml
#config_version=6
modes: bonus
game: {max_players: 1}
@ modes/bonus/config/bonus.yaml
#config_version=6
mode:
  start_events: ball_ending
  stop_events: timer_b_complete
  use_wait_queue: yes
timers:
  b:
    end_value: 1
    start_running: yes
=> Yes
yes
pinball-certificate 2
bound 14
event sw_start 11
event game_will_start 10
event game_starting 9
event player_added 1
event game_started 7
event player_turn_will_start 6
event player_turn_starting 5
event player_turn_started 4
event ball_will_start 3
event ball_starting 2
event ball_started 1
event ball_drain 29
event ball_will_end 28
event ball_ending 27
event ball_ended 10
event player_turn_will_end 9
event player_turn_ending 8
event player_turn_ended 7
event game_will_end 4
event game_ending 3
event game_ended 2
event mode_bonus_will_start 16
event mode_bonus_starting 15
event mode_bonus_started 14
event mode_bonus_stopping 12
event mode_bonus_stopped 11
event timer_b_complete 13
event timer_b_started 1
event timer_b_stopped 1
event timer_b_paused 1
event timer_b_tick 1

=== certificate that forgets what a held end leads to
--- verify
@ config/config.yaml
#config_version=6
modes: bonus
game: {max_players: 1}
@ modes/bonus/config/bonus.yaml
#config_version=6
mode:
  start_events: ball_ending
  stop_events: timer_b_complete
  use_wait_queue: yes
timers:
  b:
    end_value: 1
    start_running: yes
--- certificate
pinball-certificate 1
bound 14
event sw_start 11
event game_will_start 10
event game_starting 9
event player_added 1
event game_started 7
event player_turn_will_start 6
event player_turn_starting 5
event player_turn_started 4
event ball_will_start 3
event ball_starting 2
event ball_started 1
event ball_drain 29
event ball_will_end 28
event ball_ending 27
event ball_ended 10
event player_turn_will_end 9
event player_turn_ending 8
event player_turn_ended 7
event game_will_end 4
event game_ending 3
event game_ended 2
event mode_bonus_will_start 16
event mode_bonus_starting 15
event mode_bonus_started 14
event mode_bonus_stopping 12
event mode_bonus_stopped 1
event timer_b_complete 13
event timer_b_started 1
event timer_b_stopped 1
event timer_b_paused 1
event timer_b_tick 1
=> Refused
fault 10 Certificate Short mode_bonus_stopped 11
no

=== mode that would hold the end of the ball, without a game
--- check
@ config/config.yaml
#config_version=6
modes: bonus
@ modes/bonus/config/bonus.yaml
#config_version=6
mode:
  start_events: ball_ending
  stop_events: timer_b_complete
  use_wait_queue: yes
timers:
  b:
    end_value: 1
    start_running: yes
=> Yes
yes
pinball-certificate 2
bound 4
event mode_bonus_will_start 6
event mode_bonus_starting 5
event mode_bonus_started 4
event mode_bonus_stopping 2
event mode_bonus_stopped 1
event ball_ending 7
event timer_b_complete 3
event timer_b_started 1
event timer_b_stopped 1
event timer_b_paused 1
event timer_b_tick 1

=== cycle through the end of the ball
--- check
@ config/config.yaml
#config_version=6
modes: bonus
game: {max_players: 1}
@ modes/bonus/config/bonus.yaml
#config_version=6
mode:
  start_events: ball_ending
  stop_events: player_turn_will_end
  use_wait_queue: yes
=> Refused
fault 8 Cycle ball_ended player_turn_will_end mode_bonus_stopping mode_bonus_stopped
no

=== absent mode note
--- check
@ config/config.yaml
#config_version=6
modes: m
=> Yes
note config/config.yaml 2 absent m
yes
pinball-certificate 2
bound 0

=== order of notes
--- check
@ modes/z/config/z.yaml
@ modes/b/config/b.yaml
#config_version=6
mode: {stop_on_ball_end: no, game_mode: no}
lights:
@ modes/a/config/a.yaml
#config_version=6
shows:
mode: {stop_on_ball_end: no, game_mode: no}
@ config/config.yaml
#config_version=6
sounds:
modes:
  - d
  - a
  - c
  - b
slides:
@ modes/y/config/y.yaml
=> Yes
note config/config.yaml 2 skipped sounds
note config/config.yaml 4 absent d
note config/config.yaml 6 absent c
note config/config.yaml 8 skipped slides
note modes/a/config/a.yaml 2 skipped shows
note modes/b/config/b.yaml 3 skipped lights
note modes/z/config/z.yaml 0 unlisted modes/z/config/z.yaml
note modes/y/config/y.yaml 0 unlisted modes/y/config/y.yaml
yes
pinball-certificate 2
bound 0
event mode_a_will_start 5
event mode_a_starting 4
event mode_a_started 3
event mode_a_stopping 2
event mode_a_stopped 1
event mode_b_will_start 5
event mode_b_starting 4
event mode_b_started 3
event mode_b_stopping 2
event mode_b_stopped 1
";

const REFUSALS: &str = "
=== mode listed twice
--- check
@ config/config.yaml
#config_version=6
modes: m, m
=> Refused
error 8 Duplicate config/config.yaml 2 m
no

=== modes 65
--- check
@ config/config.yaml
#config_version=6
modes: m0, m1, m2, m3, m4, m5, m6, m7, m8, m9, m10, m11, m12, m13, m14, m15, m16, m17, m18, m19, \
m20, m21, m22, m23, m24, m25, m26, m27, m28, m29, m30, m31, m32, m33, m34, m35, m36, m37, m38, m39, \
m40, m41, m42, m43, m44, m45, m46, m47, m48, m49, m50, m51, m52, m53, m54, m55, m56, m57, m58, m59, \
m60, m61, m62, m63, m64
=> Refused
error 9 Limit config/config.yaml 2 modes
no

=== mode with a name of 65 bytes
--- check
@ config/config.yaml
#config_version=6
modes: 123456789_123456789_123456789_123456789_123456789_123456789_12345
=> Refused
error 6 BadValue config/config.yaml 2 modes
no

=== mode that holds the end of the ball and starts at another event
--- check
@ config/config.yaml
#config_version=6
modes: bonus
game: {max_players: 1}
@ modes/bonus/config/bonus.yaml
#config_version=6
mode:
  start_events: ball_ending, x
  stop_events: timer_b_complete
  use_wait_queue: yes
timers:
  b:
    end_value: 1
    start_running: yes
=> Refused
error 6 BadValue modes/bonus/config/bonus.yaml 3 start_events
no

=== mode that holds the end of the ball and starts at nothing
--- check
@ config/config.yaml
#config_version=6
modes: bonus
game: {max_players: 1}
@ modes/bonus/config/bonus.yaml
#config_version=6
mode:
  use_wait_queue: yes
=> Refused
error 6 BadValue modes/bonus/config/bonus.yaml 2 start_events
no

=== fault in the text of a mode
--- check
@ config/config.yaml
#config_version=6
modes: m
@ modes/m/config/m.yaml
#config_version=6
mode:
event_player:
  go: here
  stop: there/
=> Refused
error 6 BadValue modes/m/config/m.yaml 5 stop
no

=== first fault is that of the first text in the bundle
--- check
@ modes/b/config/b.yaml
#config_version=6
mode:
  priority: high
@ modes/a/config/a.yaml
#config_version=6
switches:
@ config/config.yaml
#config_version=6
modes: a, b
=> Refused
error 6 BadValue modes/b/config/b.yaml 3 priority
no

=== faults of the machine text come first
--- check
@ modes/m/config/m.yaml
#config_version=6
switches:
@ config/config.yaml
#config_version=6
modes: m
mode:
=> Refused
error 4 UnknownSection config/config.yaml 3 mode
no

=== text of a mode twice
--- check
@ config/config.yaml
#config_version=6
modes: m
@ modes/m/config/m.yaml
#config_version=6
@ modes/m/config/m.yaml
=> Refused
error 8 Duplicate modes/m/config/m.yaml 1 -
no

=== reserved event posted
--- check
@ config/config.yaml
#config_version=6
event_player:
  x: ball_drain
=> Refused
fault 1 Name config/config.yaml 3 ball_drain
no

=== reserved events posted in several texts
The events of a mode are reserved without its text too. Those that print the same line are one fault.
--- check
@ modes/b/config/b.yaml
#config_version=6
event_player:
  x: mode_a_started
@ modes/a/config/a.yaml
#config_version=6
event_player:
  go: y, mode_b_stopped, ball_started, mode_a_stopped_x
  x: mode_b_stopped, mode_b_stopped
@ config/config.yaml
#config_version=6
modes: a, b, c
switches:
  s:
    events_when_deactivated: game_ended
    tags: start
event_player:
  x:
    - z
    - mode_c_will_start
  y: sw_start
=> Refused
note config/config.yaml 2 absent c
fault 1 Name config/config.yaml 5 game_ended
fault 1 Name config/config.yaml 10 mode_c_will_start
fault 1 Name modes/a/config/a.yaml 3 mode_b_stopped
fault 1 Name modes/a/config/a.yaml 3 ball_started
fault 1 Name modes/a/config/a.yaml 4 mode_b_stopped
fault 1 Name modes/b/config/b.yaml 3 mode_a_started
no
";

#[test]
fn modes_are_checked(rt: HostRuntime) {
    assert_rows(&rt, CHECKS);
    assert_rows(&rt, REFUSALS);
}
