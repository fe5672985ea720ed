//! Modes: logs that are played.

pub const MODE_PLAYS: &str = "
=== priority order play
The mode of higher priority comes first, though it is listed last.
--- play
(priority order)
--- log
0 s_go 1
10 s_x 1
20
=> Yes
5 machine switch s_go active
5 machine event s_go_active
5 machine event mode_hi_will_start
5 machine event mode_lo_will_start
5 machine event mode_hi_starting
5 machine event mode_lo_starting
5 machine event mode_hi_started
5 machine event mode_lo_started
15 machine switch s_x active
15 machine event s_x_active
15 hi event from_hi
15 lo event from_lo
15 machine event from_machine

=== kept stop play
--- play
@ config/config.yaml
#config_version=6
modes: m
switches:
  s_go:
    number: 1
    debounce: quick
  s_stop:
    number: 2
    debounce: quick
@ modes/m/config/m.yaml
#config_version=6
mode:
  game_mode: no
  start_events: s_go_active
  stop_events: mode_m_starting
--- log
0 s_go 1
2000
=> Yes
0 machine switch s_go active
0 machine event s_go_active
0 machine event mode_m_will_start
0 machine event mode_m_starting
0 machine event mode_m_started
0 machine event mode_m_stopping
0 machine event mode_m_stopped

=== modes of equal priority
The mode that is listed first comes first, wherever its text stands.
--- play
@ modes/a/config/a.yaml
#config_version=6
mode: {game_mode: no, start_events: s_go_active}
event_player: {s_x_active: from_a}
@ modes/b/config/b.yaml
#config_version=6
mode: {game_mode: no, start_events: s_go_active, priority: 100}
event_player: {s_x_active: from_b}
@ config/config.yaml
#config_version=6
modes: b, a
switches:
  s_go: {debounce: quick}
  s_x: {debounce: quick}
event_player: {s_x_active: from_machine}
--- log
0 s_go 1
10 s_x 1
=> Yes
0 machine switch s_go active
0 machine event s_go_active
0 machine event mode_b_will_start
0 machine event mode_a_will_start
0 machine event mode_b_starting
0 machine event mode_a_starting
0 machine event mode_b_started
0 machine event mode_a_started
10 machine switch s_x active
10 machine event s_x_active
10 b event from_b
10 a event from_a
10 machine event from_machine

=== priority of the machine is 0
--- play
@ config/config.yaml
#config_version=6
modes: m, n
switches:
  s_go: {debounce: quick}
  s_x: {debounce: quick}
event_player: {s_x_active: from_machine}
@ modes/m/config/m.yaml
#config_version=6
mode: {game_mode: no, start_events: s_go_active, priority: 0}
event_player: {s_x_active: from_m}
@ modes/n/config/n.yaml
#config_version=6
mode: {game_mode: no, start_events: s_go_active, priority: 1}
event_player: {s_x_active: from_n}
--- log
0 s_go 1
10 s_x 1
=> Yes
0 machine switch s_go active
0 machine event s_go_active
0 machine event mode_n_will_start
0 machine event mode_m_will_start
0 machine event mode_n_starting
0 machine event mode_m_starting
0 machine event mode_n_started
0 machine event mode_m_started
10 machine switch s_x active
10 machine event s_x_active
10 n event from_n
10 machine event from_machine
10 m event from_m

=== mode that is started twice in one step
Its second start finds it starting, and the third finds it active.
--- play
@ config/config.yaml
#config_version=6
modes: m
switches:
  s_go: {debounce: quick}
  s_x: {debounce: quick}
@ modes/m/config/m.yaml
#config_version=6
mode: {game_mode: no, start_events: [s_go_active, s_go_active, s_x_active]}
--- log
0 s_go 1
10 s_x 1
=> Yes
0 machine switch s_go active
0 machine event s_go_active
0 machine event mode_m_will_start
0 machine event mode_m_starting
0 machine event mode_m_started
10 machine switch s_x active
10 machine event s_x_active

=== mode that is stopped while it starts
The stop is kept until the mode is active and has handled that. It handles events while it stops, and none
once it has.
--- play
@ config/config.yaml
#config_version=6
modes: m
switches:
  s_go: {debounce: quick}
event_player:
  s_go_active: halt
@ modes/m/config/m.yaml
#config_version=6
mode:
  game_mode: no
  start_events: s_go_active
  stop_events: halt
event_player:
  mode_m_starting: too_early
  mode_m_started: ran
  mode_m_stopping: last
  mode_m_stopped: too_late
--- log
0 s_go 1
=> Yes
0 machine switch s_go active
0 machine event s_go_active
0 machine event mode_m_will_start
0 machine event halt
0 machine event mode_m_starting
0 machine event mode_m_started
0 m event ran
0 machine event mode_m_stopping
0 m event last
0 machine event mode_m_stopped

=== mode that is stopped by its own started event
A stop that was kept besides finds it stopping.
--- play
@ config/config.yaml
#config_version=6
modes: m
switches:
  s_go: {debounce: quick}
@ modes/m/config/m.yaml
#config_version=6
mode:
  game_mode: no
  start_events: s_go_active
  stop_events: mode_m_starting, mode_m_started
--- log
0 s_go 1
=> Yes
0 machine switch s_go active
0 machine event s_go_active
0 machine event mode_m_will_start
0 machine event mode_m_starting
0 machine event mode_m_started
0 machine event mode_m_stopping
0 machine event mode_m_stopped

=== mode that starts again before its stopped event comes
--- play
@ config/config.yaml
#config_version=6
modes: m
switches:
  s_go: {debounce: quick}
  s_x: {debounce: quick}
  s_y: {debounce: quick}
event_player:
  s_x_active: halt, later
  later: again
@ modes/m/config/m.yaml
#config_version=6
mode:
  game_mode: no
  start_events: s_go_active, again
  stop_events: halt
event_player:
  again: from_m
  mode_m_stopped: from_m
  s_y_active: here
--- log
0 s_go 1
10 s_x 1
20 s_y 1
=> Yes
0 machine switch s_go active
0 machine event s_go_active
0 machine event mode_m_will_start
0 machine event mode_m_starting
0 machine event mode_m_started
10 machine switch s_x active
10 machine event s_x_active
10 machine event halt
10 machine event later
10 machine event mode_m_stopping
10 machine event again
10 machine event mode_m_stopped
10 machine event mode_m_will_start
10 machine event mode_m_starting
10 machine event mode_m_started
20 machine switch s_y active
20 machine event s_y_active
20 m event here

=== mode that stops does not start
--- play
@ config/config.yaml
#config_version=6
modes: m
switches:
  s_go: {debounce: quick}
  s_x: {debounce: quick}
  s_y: {debounce: quick}
event_player:
  s_x_active: halt, again
@ modes/m/config/m.yaml
#config_version=6
mode:
  game_mode: no
  start_events: s_go_active, again
  stop_events: halt
event_player:
  again: from_m
  s_y_active: here
--- log
0 s_go 1
10 s_x 1
20 s_y 1
=> Yes
0 machine switch s_go active
0 machine event s_go_active
0 machine event mode_m_will_start
0 machine event mode_m_starting
0 machine event mode_m_started
10 machine switch s_x active
10 machine event s_x_active
10 machine event halt
10 machine event again
10 machine event mode_m_stopping
10 m event from_m
10 machine event mode_m_stopped
20 machine switch s_y active
20 machine event s_y_active

=== mode that starts and stops with another
--- play
@ config/config.yaml
#config_version=6
modes: top, base
switches:
  s_go: {debounce: quick}
  s_stop: {debounce: quick}
  s_x: {debounce: quick}
@ modes/base/config/base.yaml
#config_version=6
mode:
  game_mode: no
  start_events: s_go_active
  stop_events: s_stop_active
event_player:
  s_x_active: from_base
  mode_base_stopped: gone
@ modes/top/config/top.yaml
#config_version=6
mode:
  game_mode: no
  priority: 99
  start_events: mode_base_started
  stop_events: mode_base_stopping
event_player:
  s_x_active: from_top
  mode_top_stopping: going
  mode_base_stopped: gone
--- log
0 s_go 1
10 s_x 1
20 s_stop 1
30 s_x 0
40 s_x 1
=> Yes
0 machine switch s_go active
0 machine event s_go_active
0 machine event mode_base_will_start
0 machine event mode_base_starting
0 machine event mode_base_started
0 machine event mode_top_will_start
0 machine event mode_top_starting
0 machine event mode_top_started
10 machine switch s_x active
10 machine event s_x_active
10 base event from_base
10 top event from_top
20 machine switch s_stop active
20 machine event s_stop_active
20 machine event mode_base_stopping
20 machine event mode_top_stopping
20 machine event mode_base_stopped
20 top event going
20 machine event mode_top_stopped
30 machine switch s_x inactive
30 machine event s_x_inactive
40 machine switch s_x active
40 machine event s_x_active

=== two modes hold the end of the ball
The ball ends once the last of them has stopped. Until then no ball of the game is on.
--- play
@ config/config.yaml
#config_version=6
modes: a, b
game: {balls_per_game: 1}
switches:
  s_b: {number: 1, debounce: quick}
  s_start: {number: 2, debounce: quick, tags: start}
  s_x: {number: 3, debounce: quick}
coils:
  c: {number: 1}
ball_devices:
  trough:
    ball_switches: s_b
    eject_coil: c
    entrance_count_delay: 1
    exit_count_delay: 1
    tags: trough, drain
@ modes/a/config/a.yaml
#config_version=6
mode:
  start_events: ball_ending
  stop_events: s_x_active
  use_wait_queue: yes
@ modes/b/config/b.yaml
#config_version=6
mode:
  start_events: ball_ending{current_player.ball==1}
  stop_events: s_x_inactive
  use_wait_queue: yes
--- log
0 s_b 1
10 s_start 1
20 s_b 0
30 s_b 1
40 s_x 1
50 s_x 0
=> Yes
0 machine switch s_b active
0 machine event s_b_active
1 machine balls 1 1 0 0
1 machine event balldevice_trough_ball_enter
10 machine switch s_start active
10 machine event s_start_active
10 machine event sw_start
10 machine event game_will_start
10 machine event game_starting
10 machine event player_added
10 machine event game_started
10 machine event player_turn_will_start
10 machine event player_turn_starting
10 machine event player_turn_started
10 machine event ball_will_start
10 machine event ball_starting
10 machine coil c pulse 10 1000
10 machine event balldevice_trough_ball_eject_attempt
10 machine event balldevice_trough_ejecting_ball
10 machine event ball_started
20 machine switch s_b inactive
20 machine event s_b_inactive
21 machine balls 1 0 1 0
30 machine switch s_b active
30 machine event s_b_active
31 machine balls 2 1 1 0
31 machine event balldevice_trough_ball_enter
31 machine event ball_drain
31 machine event ball_will_end
31 machine event ball_ending
31 machine event mode_a_will_start
31 machine event mode_b_will_start
31 machine event mode_a_starting
31 machine event mode_b_starting
31 machine event mode_a_started
31 machine event mode_b_started
40 machine switch s_x active
40 machine event s_x_active
40 machine event mode_a_stopping
40 machine event mode_a_stopped
50 machine switch s_x inactive
50 machine event s_x_inactive
50 machine event mode_b_stopping
50 machine event mode_b_stopped
50 machine event ball_ended
50 machine event player_turn_will_end
50 machine event player_turn_ending
50 machine event player_turn_ended
50 machine event game_will_end
50 machine event game_ending
50 machine event game_ended
50 machine final 1 0

=== mode that is stopped while it starts holds the end of the ball
It is started twice, and holds once. A mode that does not ask to holds nothing.
--- play
@ config/config.yaml
#config_version=6
modes: a, b
game: {balls_per_game: 1}
switches:
  s_b: {number: 1, debounce: quick}
  s_start: {number: 2, debounce: quick, tags: start}
  s_x: {number: 3, debounce: quick}
coils:
  c: {number: 1}
ball_devices:
  trough:
    ball_switches: s_b
    eject_coil: c
    entrance_count_delay: 1
    exit_count_delay: 1
    tags: trough, drain
@ modes/a/config/a.yaml
#config_version=6
mode:
  start_events: ball_ending, ball_ending
  stop_events: mode_a_starting
  use_wait_queue: yes
@ modes/b/config/b.yaml
#config_version=6
mode:
  start_events: ball_ending
--- log
0 s_b 1
10 s_start 1
20 s_b 0
30 s_b 1
40
=> Yes
0 machine switch s_b active
0 machine event s_b_active
1 machine balls 1 1 0 0
1 machine event balldevice_trough_ball_enter
10 machine switch s_start active
10 machine event s_start_active
10 machine event sw_start
10 machine event game_will_start
10 machine event game_starting
10 machine event player_added
10 machine event game_started
10 machine event player_turn_will_start
10 machine event player_turn_starting
10 machine event player_turn_started
10 machine event ball_will_start
10 machine event ball_starting
10 machine coil c pulse 10 1000
10 machine event balldevice_trough_ball_eject_attempt
10 machine event balldevice_trough_ejecting_ball
10 machine event ball_started
20 machine switch s_b inactive
20 machine event s_b_inactive
21 machine balls 1 0 1 0
30 machine switch s_b active
30 machine event s_b_active
31 machine balls 2 1 1 0
31 machine event balldevice_trough_ball_enter
31 machine event ball_drain
31 machine event ball_will_end
31 machine event ball_ending
31 machine event mode_a_will_start
31 machine event mode_b_will_start
31 machine event mode_a_starting
31 machine event mode_b_starting
31 machine event mode_a_started
31 machine event mode_b_started
31 machine event mode_a_stopping
31 machine event mode_b_stopping
31 machine event mode_a_stopped
31 machine event mode_b_stopped
31 machine event ball_ended
31 machine event player_turn_will_end
31 machine event player_turn_ending
31 machine event player_turn_ended
31 machine event game_will_end
31 machine event game_ending
31 machine event game_ended
31 machine final 1 0

=== end of the ball waits for a mode that did not start
--- play
@ config/config.yaml
#config_version=6
modes: a
game: {balls_per_game: 1}
switches:
  s_b: {number: 1, debounce: quick}
  s_start: {number: 2, debounce: quick, tags: start}
  s_x: {number: 3, debounce: quick}
coils:
  c: {number: 1}
ball_devices:
  trough:
    ball_switches: s_b
    eject_coil: c
    entrance_count_delay: 1
    exit_count_delay: 1
    tags: trough, drain
@ modes/a/config/a.yaml
#config_version=6
mode:
  start_events: ball_ending{current_player.ball==2}
  use_wait_queue: yes
--- log
0 s_b 1
10 s_start 1
20 s_b 0
30 s_b 1
40
=> Yes
0 machine switch s_b active
0 machine event s_b_active
1 machine balls 1 1 0 0
1 machine event balldevice_trough_ball_enter
10 machine switch s_start active
10 machine event s_start_active
10 machine event sw_start
10 machine event game_will_start
10 machine event game_starting
10 machine event player_added
10 machine event game_started
10 machine event player_turn_will_start
10 machine event player_turn_starting
10 machine event player_turn_started
10 machine event ball_will_start
10 machine event ball_starting
10 machine coil c pulse 10 1000
10 machine event balldevice_trough_ball_eject_attempt
10 machine event balldevice_trough_ejecting_ball
10 machine event ball_started
20 machine switch s_b inactive
20 machine event s_b_inactive
21 machine balls 1 0 1 0
30 machine switch s_b active
30 machine event s_b_active
31 machine balls 2 1 1 0
31 machine event balldevice_trough_ball_enter
31 machine event ball_drain
31 machine event ball_will_end
31 machine event ball_ending
31 machine event ball_ended
31 machine event player_turn_will_end
31 machine event player_turn_ending
31 machine event player_turn_ended
31 machine event game_will_end
31 machine event game_ending
31 machine event game_ended
31 machine final 1 0

=== end of a ball that no mode lets go
--- play
@ config/config.yaml
#config_version=6
modes: a
game: {balls_per_game: 1}
switches:
  s_b: {number: 1, debounce: quick}
  s_start: {number: 2, debounce: quick, tags: start}
  s_x: {number: 3, debounce: quick}
coils:
  c: {number: 1}
ball_devices:
  trough:
    ball_switches: s_b
    eject_coil: c
    entrance_count_delay: 1
    exit_count_delay: 1
    tags: trough, drain
@ modes/a/config/a.yaml
#config_version=6
mode:
  start_events: ball_ending
  game_mode: yes
  stop_on_ball_end: yes
  use_wait_queue: yes
--- log
0 s_b 1
10 s_start 1
20 s_b 0
30 s_b 1
1000 s_b 0
1010 s_b 1
2000
=> Yes
0 machine switch s_b active
0 machine event s_b_active
1 machine balls 1 1 0 0
1 machine event balldevice_trough_ball_enter
10 machine switch s_start active
10 machine event s_start_active
10 machine event sw_start
10 machine event game_will_start
10 machine event game_starting
10 machine event player_added
10 machine event game_started
10 machine event player_turn_will_start
10 machine event player_turn_starting
10 machine event player_turn_started
10 machine event ball_will_start
10 machine event ball_starting
10 machine coil c pulse 10 1000
10 machine event balldevice_trough_ball_eject_attempt
10 machine event balldevice_trough_ejecting_ball
10 machine event ball_started
20 machine switch s_b inactive
20 machine event s_b_inactive
21 machine balls 1 0 1 0
30 machine switch s_b active
30 machine event s_b_active
31 machine balls 2 1 1 0
31 machine event balldevice_trough_ball_enter
31 machine event ball_drain
31 machine event ball_will_end
31 machine event ball_ending
31 machine event mode_a_will_start
31 machine event mode_a_starting
31 machine event mode_a_started
1000 machine switch s_b inactive
1000 machine event s_b_inactive
1001 machine balls 2 0 1 1
1010 machine switch s_b active
1010 machine event s_b_active
1011 machine balls 2 1 1 0
1011 machine event balldevice_trough_ball_enter

=== mode with a name of 64 bytes
--- play
@ config/config.yaml
#config_version=6
modes: 123456789_123456789_123456789_123456789_123456789_123456789_1234
switches:
  s_go: {debounce: quick}
@ modes/123456789_123456789_123456789_123456789_123456789_123456789_1234\
/config/123456789_123456789_123456789_123456789_123456789_123456789_1234.yaml
#config_version=6
mode: {game_mode: no, start_events: s_go_active}
event_player: {s_go_inactive: out}
--- log
0 s_go 1
1 s_go 0
=> Yes
0 machine switch s_go active
0 machine event s_go_active
0 machine event mode_123456789_123456789_123456789_123456789_123456789_123456789_1234_will_start
0 machine event mode_123456789_123456789_123456789_123456789_123456789_123456789_1234_starting
0 machine event mode_123456789_123456789_123456789_123456789_123456789_123456789_1234_started
1 machine switch s_go inactive
1 machine event s_go_inactive
1 123456789_123456789_123456789_123456789_123456789_123456789_1234 event out

=== game mode does not start
--- play
@ config/config.yaml
#config_version=6
modes: m
switches:
  s_go: {debounce: quick}
  s_x: {debounce: quick}
event_player: {s_x_active: from_machine}
@ modes/m/config/m.yaml
#config_version=6
mode: {start_events: s_go_active}
event_player: {s_x_active: from_m}
--- log
0 s_go 1
10 s_x 1
=> Yes
0 machine switch s_go active
0 machine event s_go_active
10 machine switch s_x active
10 machine event s_x_active
10 machine event from_machine
";
