//! Rows whose logs move balls.

/// Ball devices, the ledger of balls, and games by switch changes.
pub const BALL_PLAYS: &str = "
=== balls counted at start
--- play
@ config/config.yaml
#config_version=6
switches:
  s_b1:
    number: 1
  s_b2:
    number: 2
  s_b3:
    number: 3
  s_b4:
    number: 4
  s_b5:
    number: 5
coils:
  c_trough:
    number: 1
ball_devices:
  trough:
    ball_switches: s_b1, s_b2, s_b3, s_b4, s_b5
    eject_coil: c_trough
    tags: trough, home, drain
--- log
0 s_b1 1
0 s_b2 1
0 s_b3 1
0 s_b4 1
0 s_b5 1
1000
=> Yes
5 machine switch s_b1 active
5 machine event s_b1_active
5 machine switch s_b2 active
5 machine event s_b2_active
5 machine switch s_b3 active
5 machine event s_b3_active
5 machine switch s_b4 active
5 machine event s_b4_active
5 machine switch s_b5 active
5 machine event s_b5_active
505 machine balls 1 1 0 0
505 machine event balldevice_trough_ball_enter
505 machine balls 2 2 0 0
505 machine event balldevice_trough_ball_enter
505 machine balls 3 3 0 0
505 machine event balldevice_trough_ball_enter
505 machine balls 4 4 0 0
505 machine event balldevice_trough_ball_enter
505 machine balls 5 5 0 0
505 machine event balldevice_trough_ball_enter

=== ball ejected to plunger and playfield
--- play
@ config/config.yaml
#config_version=6
game:
switches:
  s_b1:
    number: 1
  s_b2:
    number: 2
  s_b3:
    number: 3
  s_b4:
    number: 4
  s_b5:
    number: 5
  s_start:
    number: 6
    tags: start
  s_plunger:
    number: 7
  s_pf:
    number: 8
    tags: playfield_active
coils:
  c_trough:
    number: 1
  c_plunger:
    number: 2
ball_devices:
  trough:
    ball_switches: s_b1, s_b2, s_b3, s_b4, s_b5
    eject_coil: c_trough
    tags: trough, home, drain
    eject_targets: plunger
  plunger:
    ball_switches: s_plunger
    eject_coil: c_plunger
--- log
0 s_b1 1
0 s_b2 1
0 s_b3 1
0 s_b4 1
0 s_b5 1
1000
1000 s_start 1
1200 s_b1 0
1800 s_plunger 1
2400 s_plunger 0
3000 s_pf 1
4000
=> Yes
5 machine switch s_b1 active
5 machine event s_b1_active
5 machine switch s_b2 active
5 machine event s_b2_active
5 machine switch s_b3 active
5 machine event s_b3_active
5 machine switch s_b4 active
5 machine event s_b4_active
5 machine switch s_b5 active
5 machine event s_b5_active
505 machine balls 1 1 0 0
505 machine event balldevice_trough_ball_enter
505 machine balls 2 2 0 0
505 machine event balldevice_trough_ball_enter
505 machine balls 3 3 0 0
505 machine event balldevice_trough_ball_enter
505 machine balls 4 4 0 0
505 machine event balldevice_trough_ball_enter
505 machine balls 5 5 0 0
505 machine event balldevice_trough_ball_enter
1005 machine switch s_start active
1005 machine event s_start_active
1005 machine event sw_start
1005 machine event game_will_start
1005 machine event game_starting
1005 machine event player_added
1005 machine event game_started
1005 machine event player_turn_will_start
1005 machine event player_turn_starting
1005 machine event player_turn_started
1005 machine event ball_will_start
1005 machine event ball_starting
1005 machine coil c_trough pulse 10 1000
1005 machine event balldevice_trough_ball_eject_attempt
1005 machine event balldevice_trough_ejecting_ball
1005 machine event ball_started
1205 machine switch s_b1 inactive
1205 machine event s_b1_inactive
1705 machine balls 5 4 1 0
1805 machine switch s_plunger active
1805 machine event s_plunger_active
2305 machine balls 5 5 0 0
2305 machine coil c_plunger pulse 10 1000
2305 machine event balldevice_plunger_ball_enter
2305 machine event balldevice_trough_ball_eject_success
2305 machine event balldevice_plunger_ball_eject_attempt
2305 machine event balldevice_plunger_ejecting_ball
2405 machine switch s_plunger inactive
2405 machine event s_plunger_inactive
2905 machine balls 5 4 1 0
3005 machine switch s_pf active
3005 machine balls 5 4 0 1
3005 machine event balldevice_plunger_ball_eject_success
3005 machine event s_pf_active
3005 machine event sw_playfield_active

=== unasked loss and return
--- play
@ config/config.yaml
#config_version=6
switches:
  s_b1:
    number: 1
  s_b2:
    number: 2
  s_b3:
    number: 3
  s_b4:
    number: 4
  s_b5:
    number: 5
coils:
  c_trough:
    number: 1
ball_devices:
  trough:
    ball_switches: s_b1, s_b2, s_b3, s_b4, s_b5
    eject_coil: c_trough
    tags: trough, home, drain
--- log
0 s_b1 1
0 s_b2 1
0 s_b3 1
0 s_b4 1
0 s_b5 1
2000 s_b3 0
2600 s_b3 1
4000
=> Yes
5 machine switch s_b1 active
5 machine event s_b1_active
5 machine switch s_b2 active
5 machine event s_b2_active
5 machine switch s_b3 active
5 machine event s_b3_active
5 machine switch s_b4 active
5 machine event s_b4_active
5 machine switch s_b5 active
5 machine event s_b5_active
505 machine balls 1 1 0 0
505 machine event balldevice_trough_ball_enter
505 machine balls 2 2 0 0
505 machine event balldevice_trough_ball_enter
505 machine balls 3 3 0 0
505 machine event balldevice_trough_ball_enter
505 machine balls 4 4 0 0
505 machine event balldevice_trough_ball_enter
505 machine balls 5 5 0 0
505 machine event balldevice_trough_ball_enter
2005 machine switch s_b3 inactive
2005 machine event s_b3_inactive
2505 machine balls 5 4 0 1
2605 machine switch s_b3 active
2605 machine event s_b3_active
3105 machine balls 5 5 0 0
3105 machine event balldevice_trough_ball_enter

=== last ball drains
--- play
@ config/config.yaml
#config_version=6
game:
  balls_per_game: 1
switches:
  s_b1:
    number: 1
  s_b2:
    number: 2
  s_b3:
    number: 3
  s_b4:
    number: 4
  s_b5:
    number: 5
  s_start:
    number: 6
    tags: start
  s_plunger:
    number: 7
  s_pf:
    number: 8
    tags: playfield_active
coils:
  c_trough:
    number: 1
  c_plunger:
    number: 2
ball_devices:
  trough:
    ball_switches: s_b1, s_b2, s_b3, s_b4, s_b5
    eject_coil: c_trough
    tags: trough, home, drain
    eject_targets: plunger
  plunger:
    ball_switches: s_plunger
    eject_coil: c_plunger
--- log
0 s_b1 1
0 s_b2 1
0 s_b3 1
0 s_b4 1
0 s_b5 1
1000
1000 s_start 1
1200 s_b1 0
1800 s_plunger 1
2400 s_plunger 0
3000 s_pf 1
4000
5000 s_b1 1
6000
=> Yes
5 machine switch s_b1 active
5 machine event s_b1_active
5 machine switch s_b2 active
5 machine event s_b2_active
5 machine switch s_b3 active
5 machine event s_b3_active
5 machine switch s_b4 active
5 machine event s_b4_active
5 machine switch s_b5 active
5 machine event s_b5_active
505 machine balls 1 1 0 0
505 machine event balldevice_trough_ball_enter
505 machine balls 2 2 0 0
505 machine event balldevice_trough_ball_enter
505 machine balls 3 3 0 0
505 machine event balldevice_trough_ball_enter
505 machine balls 4 4 0 0
505 machine event balldevice_trough_ball_enter
505 machine balls 5 5 0 0
505 machine event balldevice_trough_ball_enter
1005 machine switch s_start active
1005 machine event s_start_active
1005 machine event sw_start
1005 machine event game_will_start
1005 machine event game_starting
1005 machine event player_added
1005 machine event game_started
1005 machine event player_turn_will_start
1005 machine event player_turn_starting
1005 machine event player_turn_started
1005 machine event ball_will_start
1005 machine event ball_starting
1005 machine coil c_trough pulse 10 1000
1005 machine event balldevice_trough_ball_eject_attempt
1005 machine event balldevice_trough_ejecting_ball
1005 machine event ball_started
1205 machine switch s_b1 inactive
1205 machine event s_b1_inactive
1705 machine balls 5 4 1 0
1805 machine switch s_plunger active
1805 machine event s_plunger_active
2305 machine balls 5 5 0 0
2305 machine coil c_plunger pulse 10 1000
2305 machine event balldevice_plunger_ball_enter
2305 machine event balldevice_trough_ball_eject_success
2305 machine event balldevice_plunger_ball_eject_attempt
2305 machine event balldevice_plunger_ejecting_ball
2405 machine switch s_plunger inactive
2405 machine event s_plunger_inactive
2905 machine balls 5 4 1 0
3005 machine switch s_pf active
3005 machine balls 5 4 0 1
3005 machine event balldevice_plunger_ball_eject_success
3005 machine event s_pf_active
3005 machine event sw_playfield_active
5005 machine switch s_b1 active
5005 machine event s_b1_active
5505 machine balls 5 5 0 0
5505 machine event balldevice_trough_ball_enter
5505 machine event ball_drain
5505 machine event ball_will_end
5505 machine event ball_ending
5505 machine event ball_ended
5505 machine event player_turn_will_end
5505 machine event player_turn_ending
5505 machine event player_turn_ended
5505 machine event game_will_end
5505 machine event game_ending
5505 machine event game_ended
5505 machine final 1 0

=== mode that holds the end of the ball
--- play
@ config/config.yaml
#config_version=6
modes: bonus
game:
  balls_per_game: 1
switches:
  s_b1:
    number: 1
  s_b2:
    number: 2
  s_b3:
    number: 3
  s_b4:
    number: 4
  s_b5:
    number: 5
  s_start:
    number: 6
    tags: start
  s_plunger:
    number: 7
  s_pf:
    number: 8
    tags: playfield_active
coils:
  c_trough:
    number: 1
  c_plunger:
    number: 2
ball_devices:
  trough:
    ball_switches: s_b1, s_b2, s_b3, s_b4, s_b5
    eject_coil: c_trough
    tags: trough, home, drain
    eject_targets: plunger
  plunger:
    ball_switches: s_plunger
    eject_coil: c_plunger
@ modes/bonus/config/bonus.yaml
#config_version=6
mode:
  start_events: ball_ending
  stop_events: timer_b_complete
  use_wait_queue: yes
timers:
  b:
    end_value: 1
    start_running: yes
--- log
0 s_b1 1
0 s_b2 1
0 s_b3 1
0 s_b4 1
0 s_b5 1
1000
1000 s_start 1
1200 s_b1 0
1800 s_plunger 1
2400 s_plunger 0
3000 s_pf 1
4000
5000 s_b1 1
7000
=> Yes
5 machine switch s_b1 active
5 machine event s_b1_active
5 machine switch s_b2 active
5 machine event s_b2_active
5 machine switch s_b3 active
5 machine event s_b3_active
5 machine switch s_b4 active
5 machine event s_b4_active
5 machine switch s_b5 active
5 machine event s_b5_active
505 machine balls 1 1 0 0
505 machine event balldevice_trough_ball_enter
505 machine balls 2 2 0 0
505 machine event balldevice_trough_ball_enter
505 machine balls 3 3 0 0
505 machine event balldevice_trough_ball_enter
505 machine balls 4 4 0 0
505 machine event balldevice_trough_ball_enter
505 machine balls 5 5 0 0
505 machine event balldevice_trough_ball_enter
1005 machine switch s_start active
1005 machine event s_start_active
1005 machine event sw_start
1005 machine event game_will_start
1005 machine event game_starting
1005 machine event player_added
1005 machine event game_started
1005 machine event player_turn_will_start
1005 machine event player_turn_starting
1005 machine event player_turn_started
1005 machine event ball_will_start
1005 machine event ball_starting
1005 machine coil c_trough pulse 10 1000
1005 machine event balldevice_trough_ball_eject_attempt
1005 machine event balldevice_trough_ejecting_ball
1005 machine event ball_started
1205 machine switch s_b1 inactive
1205 machine event s_b1_inactive
1705 machine balls 5 4 1 0
1805 machine switch s_plunger active
1805 machine event s_plunger_active
2305 machine balls 5 5 0 0
2305 machine coil c_plunger pulse 10 1000
2305 machine event balldevice_plunger_ball_enter
2305 machine event balldevice_trough_ball_eject_success
2305 machine event balldevice_plunger_ball_eject_attempt
2305 machine event balldevice_plunger_ejecting_ball
2405 machine switch s_plunger inactive
2405 machine event s_plunger_inactive
2905 machine balls 5 4 1 0
3005 machine switch s_pf active
3005 machine balls 5 4 0 1
3005 machine event balldevice_plunger_ball_eject_success
3005 machine event s_pf_active
3005 machine event sw_playfield_active
5005 machine switch s_b1 active
5005 machine event s_b1_active
5505 machine balls 5 5 0 0
5505 machine event balldevice_trough_ball_enter
5505 machine event ball_drain
5505 machine event ball_will_end
5505 machine event ball_ending
5505 machine event mode_bonus_will_start
5505 machine event mode_bonus_starting
5505 machine event mode_bonus_started
5505 bonus event timer_b_started
6505 bonus event timer_b_tick
6505 bonus event timer_b_complete
6505 machine event mode_bonus_stopping
6505 machine event mode_bonus_stopped
6505 machine event ball_ended
6505 machine event player_turn_will_end
6505 machine event player_turn_ending
6505 machine event player_turn_ended
6505 machine event game_will_end
6505 machine event game_ending
6505 machine event game_ended
6505 machine final 1 0

=== eject retried
--- play
@ config/config.yaml
#config_version=6
game:
switches:
  s_b1:
    number: 1
  s_b2:
    number: 2
  s_b3:
    number: 3
  s_b4:
    number: 4
  s_b5:
    number: 5
  s_start:
    number: 6
    tags: start
  s_plunger:
    number: 7
  s_pf:
    number: 8
    tags: playfield_active
coils:
  c_trough:
    number: 1
  c_plunger:
    number: 2
ball_devices:
  trough:
    ball_switches: s_b1, s_b2, s_b3, s_b4, s_b5
    eject_coil: c_trough
    tags: trough, home, drain
    eject_targets: plunger
  plunger:
    ball_switches: s_plunger
    eject_coil: c_plunger
--- log
0 s_b1 1
0 s_b2 1
0 s_b3 1
0 s_b4 1
0 s_b5 1
1000
1000 s_start 1
1200 s_b1 0
1800 s_plunger 1
13000
=> Yes
5 machine switch s_b1 active
5 machine event s_b1_active
5 machine switch s_b2 active
5 machine event s_b2_active
5 machine switch s_b3 active
5 machine event s_b3_active
5 machine switch s_b4 active
5 machine event s_b4_active
5 machine switch s_b5 active
5 machine event s_b5_active
505 machine balls 1 1 0 0
505 machine event balldevice_trough_ball_enter
505 machine balls 2 2 0 0
505 machine event balldevice_trough_ball_enter
505 machine balls 3 3 0 0
505 machine event balldevice_trough_ball_enter
505 machine balls 4 4 0 0
505 machine event balldevice_trough_ball_enter
505 machine balls 5 5 0 0
505 machine event balldevice_trough_ball_enter
1005 machine switch s_start active
1005 machine event s_start_active
1005 machine event sw_start
1005 machine event game_will_start
1005 machine event game_starting
1005 machine event player_added
1005 machine event game_started
1005 machine event player_turn_will_start
1005 machine event player_turn_starting
1005 machine event player_turn_started
1005 machine event ball_will_start
1005 machine event ball_starting
1005 machine coil c_trough pulse 10 1000
1005 machine event balldevice_trough_ball_eject_attempt
1005 machine event balldevice_trough_ejecting_ball
1005 machine event ball_started
1205 machine switch s_b1 inactive
1205 machine event s_b1_inactive
1705 machine balls 5 4 1 0
1805 machine switch s_plunger active
1805 machine event s_plunger_active
2305 machine balls 5 5 0 0
2305 machine coil c_plunger pulse 10 1000
2305 machine event balldevice_plunger_ball_enter
2305 machine event balldevice_trough_ball_eject_success
2305 machine event balldevice_plunger_ball_eject_attempt
2305 machine event balldevice_plunger_ejecting_ball
12305 machine coil c_plunger pulse 10 1000
12305 machine event balldevice_plunger_ball_eject_failed
12305 machine event balldevice_plunger_ball_eject_attempt
12305 machine event balldevice_plunger_ejecting_ball

=== eject gives up
--- play
@ config/config.yaml
#config_version=6
game:
switches:
  s_b1:
    number: 1
  s_b2:
    number: 2
  s_b3:
    number: 3
  s_b4:
    number: 4
  s_b5:
    number: 5
  s_start:
    number: 6
    tags: start
  s_plunger:
    number: 7
  s_pf:
    number: 8
    tags: playfield_active
coils:
  c_trough:
    number: 1
  c_plunger:
    number: 2
ball_devices:
  trough:
    ball_switches: s_b1, s_b2, s_b3, s_b4, s_b5
    eject_coil: c_trough
    tags: trough, home, drain
    eject_targets: plunger
  plunger:
    ball_switches: s_plunger
    eject_coil: c_plunger
    max_eject_attempts: 1
--- log
0 s_b1 1
0 s_b2 1
0 s_b3 1
0 s_b4 1
0 s_b5 1
1000
1000 s_start 1
1200 s_b1 0
1800 s_plunger 1
13000
=> Yes
5 machine switch s_b1 active
5 machine event s_b1_active
5 machine switch s_b2 active
5 machine event s_b2_active
5 machine switch s_b3 active
5 machine event s_b3_active
5 machine switch s_b4 active
5 machine event s_b4_active
5 machine switch s_b5 active
5 machine event s_b5_active
505 machine balls 1 1 0 0
505 machine event balldevice_trough_ball_enter
505 machine balls 2 2 0 0
505 machine event balldevice_trough_ball_enter
505 machine balls 3 3 0 0
505 machine event balldevice_trough_ball_enter
505 machine balls 4 4 0 0
505 machine event balldevice_trough_ball_enter
505 machine balls 5 5 0 0
505 machine event balldevice_trough_ball_enter
1005 machine switch s_start active
1005 machine event s_start_active
1005 machine event sw_start
1005 machine event game_will_start
1005 machine event game_starting
1005 machine event player_added
1005 machine event game_started
1005 machine event player_turn_will_start
1005 machine event player_turn_starting
1005 machine event player_turn_started
1005 machine event ball_will_start
1005 machine event ball_starting
1005 machine coil c_trough pulse 10 1000
1005 machine event balldevice_trough_ball_eject_attempt
1005 machine event balldevice_trough_ejecting_ball
1005 machine event ball_started
1205 machine switch s_b1 inactive
1205 machine event s_b1_inactive
1705 machine balls 5 4 1 0
1805 machine switch s_plunger active
1805 machine event s_plunger_active
2305 machine balls 5 5 0 0
2305 machine coil c_plunger pulse 10 1000
2305 machine event balldevice_plunger_ball_enter
2305 machine event balldevice_trough_ball_eject_success
2305 machine event balldevice_plunger_ball_eject_attempt
2305 machine event balldevice_plunger_ejecting_ball
12305 machine event balldevice_plunger_ball_eject_failed

=== ball that is plunged by hand
A ball that leaves such a device counts as ejected. The switch on the playfield confirms it before the switch's own
events.
--- play
@ config/config.yaml
#config_version=6
switches:
  s_p: {number: 1, debounce: quick}
  s_f: {number: 2, debounce: quick, tags: playfield_active}
ball_devices:
  p: {ball_switches: s_p, mechanical_eject: yes}
--- log
0 s_p 1
2000 s_p 0
2600 s_f 1
20000
=> Yes
0 machine switch s_p active
0 machine event s_p_active
500 machine balls 1 1 0 0
500 machine event balldevice_p_ball_enter
2000 machine switch s_p inactive
2000 machine event s_p_inactive
2500 machine balls 1 0 1 0
2600 machine switch s_f active
2600 machine balls 1 0 0 1
2600 machine event balldevice_p_ball_eject_success
2600 machine event s_f_active
2600 machine event sw_playfield_active

=== ball that nothing confirms
Once its time is over it counts as being on the playfield. The next ball that enters is that one.
--- play
@ config/config.yaml
#config_version=6
switches:
  s_p: {number: 1, debounce: quick}
ball_devices:
  p: {ball_switches: s_p, mechanical_eject: yes, entrance_count_delay: 1ms, exit_count_delay: 2ms, eject_timeouts: 1s}
--- log
0 s_p 1
10 s_p 0
11 s_p 1
100 s_p 0
2000 s_p 1
2001
=> Yes
0 machine switch s_p active
0 machine event s_p_active
1 machine balls 1 1 0 0
1 machine event balldevice_p_ball_enter
10 machine switch s_p inactive
10 machine event s_p_inactive
11 machine switch s_p active
11 machine event s_p_active
100 machine switch s_p inactive
100 machine event s_p_inactive
102 machine balls 1 0 1 0
1102 machine balls 1 0 0 1
1102 machine event balldevice_p_ball_eject_success
2000 machine switch s_p active
2000 machine event s_p_active
2001 machine balls 1 1 0 0
2001 machine event balldevice_p_ball_enter
";

/// Ball saves and multiballs.
pub const SAVE_PLAYS: &str = "
=== ball save
--- play
@ config/config.yaml
#config_version=6
game:
  balls_per_game: 1
switches:
  s_b1:
    number: 1
  s_b2:
    number: 2
  s_b3:
    number: 3
  s_b4:
    number: 4
  s_b5:
    number: 5
  s_start:
    number: 6
    tags: start
  s_plunger:
    number: 7
  s_pf:
    number: 8
    tags: playfield_active
coils:
  c_trough:
    number: 1
  c_plunger:
    number: 2
ball_devices:
  trough:
    ball_switches: s_b1, s_b2, s_b3, s_b4, s_b5
    eject_coil: c_trough
    tags: trough, home, drain
    eject_targets: plunger
  plunger:
    ball_switches: s_plunger
    eject_coil: c_plunger
ball_saves:
  bs:
    active_time: 10s
    enable_events: ball_started
--- log
0 s_b1 1
0 s_b2 1
0 s_b3 1
0 s_b4 1
0 s_b5 1
1000
1000 s_start 1
1200 s_b1 0
1800 s_plunger 1
2400 s_plunger 0
3000 s_pf 1
4000
5000 s_b1 1
6000
=> Yes
5 machine switch s_b1 active
5 machine event s_b1_active
5 machine switch s_b2 active
5 machine event s_b2_active
5 machine switch s_b3 active
5 machine event s_b3_active
5 machine switch s_b4 active
5 machine event s_b4_active
5 machine switch s_b5 active
5 machine event s_b5_active
505 machine balls 1 1 0 0
505 machine event balldevice_trough_ball_enter
505 machine balls 2 2 0 0
505 machine event balldevice_trough_ball_enter
505 machine balls 3 3 0 0
505 machine event balldevice_trough_ball_enter
505 machine balls 4 4 0 0
505 machine event balldevice_trough_ball_enter
505 machine balls 5 5 0 0
505 machine event balldevice_trough_ball_enter
1005 machine switch s_start active
1005 machine event s_start_active
1005 machine event sw_start
1005 machine event game_will_start
1005 machine event game_starting
1005 machine event player_added
1005 machine event game_started
1005 machine event player_turn_will_start
1005 machine event player_turn_starting
1005 machine event player_turn_started
1005 machine event ball_will_start
1005 machine event ball_starting
1005 machine coil c_trough pulse 10 1000
1005 machine event balldevice_trough_ball_eject_attempt
1005 machine event balldevice_trough_ejecting_ball
1005 machine event ball_started
1005 machine event ball_save_bs_enabled
1205 machine switch s_b1 inactive
1205 machine event s_b1_inactive
1705 machine balls 5 4 1 0
1805 machine switch s_plunger active
1805 machine event s_plunger_active
2305 machine balls 5 5 0 0
2305 machine coil c_plunger pulse 10 1000
2305 machine event balldevice_plunger_ball_enter
2305 machine event balldevice_trough_ball_eject_success
2305 machine event balldevice_plunger_ball_eject_attempt
2305 machine event balldevice_plunger_ejecting_ball
2405 machine switch s_plunger inactive
2405 machine event s_plunger_inactive
2905 machine balls 5 4 1 0
3005 machine switch s_pf active
3005 machine balls 5 4 0 1
3005 machine event balldevice_plunger_ball_eject_success
3005 machine event s_pf_active
3005 machine event sw_playfield_active
5005 machine switch s_b1 active
5005 machine event s_b1_active
5505 machine balls 5 5 0 0
5505 machine event balldevice_trough_ball_enter
5505 machine event ball_drain
5505 machine coil c_trough pulse 10 1000
5505 machine event ball_save_bs_saving_ball
5505 machine event balldevice_trough_ball_eject_attempt
5505 machine event balldevice_trough_ejecting_ball
5505 machine event ball_save_bs_disabled

=== multiball
--- play
@ config/config.yaml
#config_version=6
game:
switches:
  s_b1:
    number: 1
  s_b2:
    number: 2
  s_b3:
    number: 3
  s_b4:
    number: 4
  s_b5:
    number: 5
  s_start:
    number: 6
    tags: start
  s_plunger:
    number: 7
  s_pf:
    number: 8
    tags: playfield_active
  s_x:
    number: 9
    debounce: quick
coils:
  c_trough:
    number: 1
  c_plunger:
    number: 2
ball_devices:
  trough:
    ball_switches: s_b1, s_b2, s_b3, s_b4, s_b5
    eject_coil: c_trough
    tags: trough, home, drain
    eject_targets: plunger
  plunger:
    ball_switches: s_plunger
    eject_coil: c_plunger
multiballs:
  mb:
    ball_count: 2
    start_events: s_x_active
--- log
0 s_b1 1
0 s_b2 1
0 s_b3 1
0 s_b4 1
0 s_b5 1
1000
1000 s_start 1
1200 s_b1 0
1800 s_plunger 1
2400 s_plunger 0
3000 s_pf 1
4000
5000 s_x 1
6000 s_b1 1
7000
=> Yes
5 machine switch s_b1 active
5 machine event s_b1_active
5 machine switch s_b2 active
5 machine event s_b2_active
5 machine switch s_b3 active
5 machine event s_b3_active
5 machine switch s_b4 active
5 machine event s_b4_active
5 machine switch s_b5 active
5 machine event s_b5_active
505 machine balls 1 1 0 0
505 machine event balldevice_trough_ball_enter
505 machine balls 2 2 0 0
505 machine event balldevice_trough_ball_enter
505 machine balls 3 3 0 0
505 machine event balldevice_trough_ball_enter
505 machine balls 4 4 0 0
505 machine event balldevice_trough_ball_enter
505 machine balls 5 5 0 0
505 machine event balldevice_trough_ball_enter
1005 machine switch s_start active
1005 machine event s_start_active
1005 machine event sw_start
1005 machine event game_will_start
1005 machine event game_starting
1005 machine event player_added
1005 machine event game_started
1005 machine event player_turn_will_start
1005 machine event player_turn_starting
1005 machine event player_turn_started
1005 machine event ball_will_start
1005 machine event ball_starting
1005 machine coil c_trough pulse 10 1000
1005 machine event balldevice_trough_ball_eject_attempt
1005 machine event balldevice_trough_ejecting_ball
1005 machine event ball_started
1205 machine switch s_b1 inactive
1205 machine event s_b1_inactive
1705 machine balls 5 4 1 0
1805 machine switch s_plunger active
1805 machine event s_plunger_active
2305 machine balls 5 5 0 0
2305 machine coil c_plunger pulse 10 1000
2305 machine event balldevice_plunger_ball_enter
2305 machine event balldevice_trough_ball_eject_success
2305 machine event balldevice_plunger_ball_eject_attempt
2305 machine event balldevice_plunger_ejecting_ball
2405 machine switch s_plunger inactive
2405 machine event s_plunger_inactive
2905 machine balls 5 4 1 0
3005 machine switch s_pf active
3005 machine balls 5 4 0 1
3005 machine event balldevice_plunger_ball_eject_success
3005 machine event s_pf_active
3005 machine event sw_playfield_active
5000 machine switch s_x active
5000 machine event s_x_active
5000 machine coil c_trough pulse 10 1000
5000 machine event multiball_mb_started
5000 machine event balldevice_trough_ball_eject_attempt
5000 machine event balldevice_trough_ejecting_ball
6005 machine switch s_b1 active
6005 machine event s_b1_active
6505 machine balls 5 5 0 0
6505 machine event balldevice_trough_ball_enter
6505 machine event ball_drain
6505 machine event multiball_mb_ended

=== two ball saves
The first one that is active saves a ball. One has saved its ball, and once its time is over it is active no more. The
other has saved one of two when it is disabled.
--- play
@ config/config.yaml
#config_version=6
game: {balls_per_game: 1}
switches:
  s_a: {number: 1, debounce: quick}
  s_b: {number: 2, debounce: quick}
  s_c: {number: 3, debounce: quick}
  s_start: {number: 4, debounce: quick, tags: start}
  s_x: {number: 5, debounce: quick}
  s_y: {number: 6, debounce: quick}
coils:
  c: {number: 1}
ball_devices:
  t:
    ball_switches: s_a, s_b, s_c
    eject_coil: c
    tags: [trough, home, drain]
    entrance_count_delay: 1ms
    exit_count_delay: 1ms
    eject_timeouts: 100ms
ball_saves:
  short: {active_time: 1s, enable_events: [s_x_active, s_y_active]}
  long: {balls_to_save: 2, enable_events: ball_started, disable_events: s_y_active}
--- log
0 s_a 1
0 s_b 1
0 s_c 1
10 s_start 1
20 s_x 1
30 s_a 0
200 s_a 1
300 s_a 0
500 s_a 1
600 s_a 0
900 s_y 1
2000 s_a 1
2100
=> Yes
0 machine switch s_a active
0 machine event s_a_active
0 machine switch s_b active
0 machine event s_b_active
0 machine switch s_c active
0 machine event s_c_active
1 machine balls 1 1 0 0
1 machine event balldevice_t_ball_enter
1 machine balls 2 2 0 0
1 machine event balldevice_t_ball_enter
1 machine balls 3 3 0 0
1 machine event balldevice_t_ball_enter
10 machine switch s_start active
10 machine event s_start_active
10 machine event sw_start
10 machine event game_will_start
10 machine event game_starting
10 machine event player_added
10 machine event game_started
10 machine event player_turn_will_start
10 machine event player_turn_starting
10 machine event player_turn_started
10 machine event ball_will_start
10 machine event ball_starting
10 machine coil c pulse 10 1000
10 machine event balldevice_t_ball_eject_attempt
10 machine event balldevice_t_ejecting_ball
10 machine event ball_started
10 machine event ball_save_long_enabled
20 machine switch s_x active
20 machine event s_x_active
20 machine event ball_save_short_enabled
30 machine switch s_a inactive
30 machine event s_a_inactive
31 machine balls 3 2 1 0
110 machine balls 3 2 0 1
110 machine event balldevice_t_ball_eject_success
200 machine switch s_a active
200 machine event s_a_active
201 machine balls 3 3 0 0
201 machine event balldevice_t_ball_enter
201 machine event ball_drain
201 machine coil c pulse 10 1000
201 machine event ball_save_short_saving_ball
201 machine event balldevice_t_ball_eject_attempt
201 machine event balldevice_t_ejecting_ball
201 machine event ball_save_short_disabled
300 machine switch s_a inactive
300 machine event s_a_inactive
301 machine balls 3 2 1 0
301 machine balls 3 2 0 1
301 machine event balldevice_t_ball_eject_success
500 machine switch s_a active
500 machine event s_a_active
501 machine balls 3 3 0 0
501 machine event balldevice_t_ball_enter
501 machine event ball_drain
501 machine coil c pulse 10 1000
501 machine event ball_save_long_saving_ball
501 machine event balldevice_t_ball_eject_attempt
501 machine event balldevice_t_ejecting_ball
600 machine switch s_a inactive
600 machine event s_a_inactive
601 machine balls 3 2 1 0
601 machine balls 3 2 0 1
601 machine event balldevice_t_ball_eject_success
900 machine switch s_y active
900 machine event s_y_active
900 machine event ball_save_short_enabled
900 machine event ball_save_long_disabled
1900 machine event ball_save_short_disabled
2000 machine switch s_a active
2000 machine event s_a_active
2001 machine balls 3 3 0 0
2001 machine event balldevice_t_ball_enter
2001 machine event ball_drain
2001 machine event ball_will_end
2001 machine event ball_ending
2001 machine event ball_ended
2001 machine event player_turn_will_end
2001 machine event player_turn_ending
2001 machine event player_turn_ended
2001 machine event game_will_end
2001 machine event game_ending
2001 machine event game_ended
2001 machine final 1 0

=== multiball of three balls
Without a ball in play nothing starts, and a multiball that is running does not start again. It ends when one ball is
left.
--- play
@ config/config.yaml
#config_version=6
game: {balls_per_game: 1}
switches:
  s_a: {number: 1, debounce: quick}
  s_b: {number: 2, debounce: quick}
  s_c: {number: 3, debounce: quick}
  s_start: {number: 4, debounce: quick, tags: start}
  s_x: {number: 5, debounce: quick}
  s_y: {number: 6, debounce: quick}
coils:
  c: {number: 1}
ball_devices:
  t:
    ball_switches: s_a, s_b, s_c
    eject_coil: c
    tags: [trough, home, drain]
    entrance_count_delay: 1ms
    exit_count_delay: 1ms
    eject_timeouts: 100ms
multiballs:
  m: {ball_count: 3, start_events: [s_x_active, s_y_active]}
--- log
0 s_a 1
0 s_b 1
0 s_c 1
5 s_x 1
10 s_start 1
20 s_a 0
200 s_y 1
230 s_b 0
400 s_c 0
600 s_a 1
620 s_x 0
630 s_x 1
700 s_a 0
900 s_a 1
1000 s_b 1
1100 s_c 1
1200
=> Yes
0 machine switch s_a active
0 machine event s_a_active
0 machine switch s_b active
0 machine event s_b_active
0 machine switch s_c active
0 machine event s_c_active
1 machine balls 1 1 0 0
1 machine event balldevice_t_ball_enter
1 machine balls 2 2 0 0
1 machine event balldevice_t_ball_enter
1 machine balls 3 3 0 0
1 machine event balldevice_t_ball_enter
5 machine switch s_x active
5 machine event s_x_active
10 machine switch s_start active
10 machine event s_start_active
10 machine event sw_start
10 machine event game_will_start
10 machine event game_starting
10 machine event player_added
10 machine event game_started
10 machine event player_turn_will_start
10 machine event player_turn_starting
10 machine event player_turn_started
10 machine event ball_will_start
10 machine event ball_starting
10 machine coil c pulse 10 1000
10 machine event balldevice_t_ball_eject_attempt
10 machine event balldevice_t_ejecting_ball
10 machine event ball_started
20 machine switch s_a inactive
20 machine event s_a_inactive
21 machine balls 3 2 1 0
110 machine balls 3 2 0 1
110 machine event balldevice_t_ball_eject_success
200 machine switch s_y active
200 machine event s_y_active
200 machine coil c pulse 10 1000
200 machine event multiball_m_started
200 machine event balldevice_t_ball_eject_attempt
200 machine event balldevice_t_ejecting_ball
230 machine switch s_b inactive
230 machine event s_b_inactive
231 machine balls 3 1 1 1
300 machine balls 3 1 0 2
300 machine coil c pulse 10 1000
300 machine event balldevice_t_ball_eject_success
300 machine event balldevice_t_ball_eject_attempt
300 machine event balldevice_t_ejecting_ball
400 machine coil c pulse 10 1000
400 machine event balldevice_t_ball_eject_failed
400 machine event balldevice_t_ball_eject_attempt
400 machine event balldevice_t_ejecting_ball
400 machine switch s_c inactive
400 machine event s_c_inactive
401 machine balls 3 0 1 2
500 machine balls 3 0 0 3
500 machine event balldevice_t_ball_eject_success
600 machine switch s_a active
600 machine event s_a_active
601 machine balls 3 1 0 2
601 machine event balldevice_t_ball_enter
601 machine event ball_drain
620 machine switch s_x inactive
620 machine event s_x_inactive
630 machine switch s_x active
630 machine event s_x_active
700 machine switch s_a inactive
700 machine event s_a_inactive
701 machine balls 3 0 0 3
900 machine switch s_a active
900 machine event s_a_active
901 machine balls 3 1 0 2
901 machine event balldevice_t_ball_enter
901 machine event ball_drain
901 machine event multiball_m_ended
1000 machine switch s_b active
1000 machine event s_b_active
1001 machine balls 3 2 0 1
1001 machine event balldevice_t_ball_enter
1001 machine event ball_drain
1001 machine event ball_will_end
1001 machine event ball_ending
1001 machine event ball_ended
1001 machine event player_turn_will_end
1001 machine event player_turn_ending
1001 machine event player_turn_ended
1001 machine event game_will_end
1001 machine event game_ending
1001 machine event game_ended
1001 machine final 1 0
1100 machine switch s_c active
1100 machine event s_c_active
1101 machine balls 3 3 0 0
1101 machine event balldevice_t_ball_enter

=== ball save of a mode
Its lines are the mode's. Once the mode has stopped it saves nothing, and reports nothing.
--- play
@ config/config.yaml
#config_version=6
modes: m
game: {balls_per_game: 1}
switches:
  s_a: {number: 1, debounce: quick}
  s_start: {number: 2, debounce: quick, tags: start}
  s_x: {number: 3, debounce: quick}
  s_y: {number: 4, debounce: quick}
coils:
  c: {number: 1}
ball_devices:
  t:
    ball_switches: s_a
    eject_coil: c
    tags: [trough, home, drain]
    entrance_count_delay: 1ms
    exit_count_delay: 1ms
    eject_timeouts: 100ms
@ modes/m/config/m.yaml
#config_version=6
mode: {start_events: s_x_active, stop_events: s_y_active}
ball_saves:
  b: {balls_to_save: 99, enable_events: mode_m_started}
--- log
0 s_a 1
10 s_start 1
20 s_a 0
130 s_x 1
200 s_a 1
210 s_a 0
400 s_y 1
500 s_a 1
600
=> Yes
0 machine switch s_a active
0 machine event s_a_active
1 machine balls 1 1 0 0
1 machine event balldevice_t_ball_enter
10 machine switch s_start active
10 machine event s_start_active
10 machine event sw_start
10 machine event game_will_start
10 machine event game_starting
10 machine event player_added
10 machine event game_started
10 machine event player_turn_will_start
10 machine event player_turn_starting
10 machine event player_turn_started
10 machine event ball_will_start
10 machine event ball_starting
10 machine coil c pulse 10 1000
10 machine event balldevice_t_ball_eject_attempt
10 machine event balldevice_t_ejecting_ball
10 machine event ball_started
20 machine switch s_a inactive
20 machine event s_a_inactive
21 machine balls 1 0 1 0
110 machine balls 1 0 0 1
110 machine event balldevice_t_ball_eject_success
130 machine switch s_x active
130 machine event s_x_active
130 machine event mode_m_will_start
130 machine event mode_m_starting
130 machine event mode_m_started
130 m event ball_save_b_enabled
200 machine switch s_a active
200 machine event s_a_active
201 machine balls 1 1 0 0
201 machine event balldevice_t_ball_enter
201 machine event ball_drain
201 machine coil c pulse 10 1000
201 m event ball_save_b_saving_ball
201 machine event balldevice_t_ball_eject_attempt
201 machine event balldevice_t_ejecting_ball
210 machine switch s_a inactive
210 machine event s_a_inactive
211 machine balls 1 0 1 0
301 machine balls 1 0 0 1
301 machine event balldevice_t_ball_eject_success
400 machine switch s_y active
400 machine event s_y_active
400 machine event mode_m_stopping
400 machine event mode_m_stopped
500 machine switch s_a active
500 machine event s_a_active
501 machine balls 1 1 0 0
501 machine event balldevice_t_ball_enter
501 machine event ball_drain
501 machine event ball_will_end
501 machine event ball_ending
501 machine event ball_ended
501 machine event player_turn_will_end
501 machine event player_turn_ending
501 machine event player_turn_ended
501 machine event game_will_end
501 machine event game_ending
501 machine event game_ended
501 machine final 1 0
";

/// Three machines in one bundle: a mode with a timer, a game with two ball devices, and a counter. None of the machines
/// disturbs another, so the trace has the lines of all three, by moments.
pub const THREE_MACHINES_PLAY: &str = "
=== three machines
--- play
(three machines)
--- log
0 s_b1 1
0 s_b2 1
0 s_b3 1
0 s_b4 1
0 s_b5 1
600 s_go 1
1000
1000 s_start 1
1200 s_b1 0
1300 s_left 1
1800 s_plunger 1
2400 s_plunger 0
2600 s_stop 1
2700 s_left 0
2800 s_left 1
3000 s_pf 1
4000
=> Yes
5 machine switch s_b1 active
5 machine event s_b1_active
5 machine switch s_b2 active
5 machine event s_b2_active
5 machine switch s_b3 active
5 machine event s_b3_active
5 machine switch s_b4 active
5 machine event s_b4_active
5 machine switch s_b5 active
5 machine event s_b5_active
505 machine balls 1 1 0 0
505 machine event balldevice_trough_ball_enter
505 machine balls 2 2 0 0
505 machine event balldevice_trough_ball_enter
505 machine balls 3 3 0 0
505 machine event balldevice_trough_ball_enter
505 machine balls 4 4 0 0
505 machine event balldevice_trough_ball_enter
505 machine balls 5 5 0 0
505 machine event balldevice_trough_ball_enter
600 machine switch s_go active
600 machine event s_go_active
600 machine event mode_m_will_start
600 machine event mode_m_starting
600 machine event mode_m_started
600 m event timer_t_started
1005 machine switch s_start active
1005 machine event s_start_active
1005 machine event sw_start
1005 machine event game_will_start
1005 machine event game_starting
1005 machine event player_added
1005 machine event game_started
1005 machine event player_turn_will_start
1005 machine event player_turn_starting
1005 machine event player_turn_started
1005 machine event ball_will_start
1005 machine event ball_starting
1005 machine coil c_trough pulse 10 1000
1005 machine event balldevice_trough_ball_eject_attempt
1005 machine event balldevice_trough_ejecting_ball
1005 machine event ball_started
1205 machine switch s_b1 inactive
1205 machine event s_b1_inactive
1305 machine switch s_left active
1305 machine event s_left_active
1305 machine event logicblock_c_updated
1305 machine event logicblock_c_hit
1600 m event timer_t_tick
1705 machine balls 5 4 1 0
1805 machine switch s_plunger active
1805 machine event s_plunger_active
2305 machine balls 5 5 0 0
2305 machine coil c_plunger pulse 10 1000
2305 machine event balldevice_plunger_ball_enter
2305 machine event balldevice_trough_ball_eject_success
2305 machine event balldevice_plunger_ball_eject_attempt
2305 machine event balldevice_plunger_ejecting_ball
2405 machine switch s_plunger inactive
2405 machine event s_plunger_inactive
2600 m event timer_t_tick
2600 machine switch s_stop active
2600 machine event s_stop_active
2600 machine event mode_m_stopping
2600 machine event mode_m_stopped
2705 machine switch s_left inactive
2705 machine event s_left_inactive
2805 machine switch s_left active
2805 machine event s_left_active
2805 machine event logicblock_c_updated
2805 machine event logicblock_c_hit
2805 machine event logicblock_c_complete
2905 machine balls 5 4 1 0
3005 machine switch s_pf active
3005 machine balls 5 4 0 1
3005 machine event balldevice_plunger_ball_eject_success
3005 machine event s_pf_active
3005 machine event sw_playfield_active
";
