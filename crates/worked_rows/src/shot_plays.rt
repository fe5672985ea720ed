//! Shots, groups and profiles: logs that are played.

pub const SHOT_PLAYS: &str = "
=== shot and group in game
--- play
@ config/config.yaml
#config_version=6
machine:
  min_balls: 0
game:
switches:
  s_start:
    number: 1
    debounce: quick
    tags: start
  s_x:
    number: 2
    debounce: quick
shots:
  x:
    switch: s_x
shot_groups:
  g:
    shots: x
--- log
0 s_start 1
100 s_x 1
200
=> Yes
0 machine switch s_start active
0 machine event s_start_active
0 machine event sw_start
0 machine event game_will_start
0 machine event game_starting
0 machine event player_added
0 machine event game_started
0 machine event player_turn_will_start
0 machine event player_turn_starting
0 machine event player_turn_started
0 machine event ball_will_start
0 machine event ball_starting
0 machine event ball_started
100 machine switch s_x active
100 machine event s_x_active
100 machine event x_hit
100 machine event x_default_hit
100 machine event x_default_unlit_hit
100 machine event x_unlit_hit
100 machine event g_hit
100 machine event g_unlit_hit
100 machine event g_complete
100 machine event g_lit_complete

=== second hit is lit
--- play
@ config/config.yaml
#config_version=6
machine:
  min_balls: 0
game:
switches:
  s_start:
    number: 1
    debounce: quick
    tags: start
  s_x:
    number: 2
    debounce: quick
shots:
  x:
    switch: s_x
shot_groups:
  g:
    shots: x
--- log
0 s_start 1
100 s_x 1
110 s_x 0
120 s_x 1
200
=> Yes
0 machine switch s_start active
0 machine event s_start_active
0 machine event sw_start
0 machine event game_will_start
0 machine event game_starting
0 machine event player_added
0 machine event game_started
0 machine event player_turn_will_start
0 machine event player_turn_starting
0 machine event player_turn_started
0 machine event ball_will_start
0 machine event ball_starting
0 machine event ball_started
100 machine switch s_x active
100 machine event s_x_active
100 machine event x_hit
100 machine event x_default_hit
100 machine event x_default_unlit_hit
100 machine event x_unlit_hit
100 machine event g_hit
100 machine event g_unlit_hit
100 machine event g_complete
100 machine event g_lit_complete
110 machine switch s_x inactive
110 machine event s_x_inactive
120 machine switch s_x active
120 machine event s_x_active
120 machine event x_hit
120 machine event x_default_hit
120 machine event x_default_lit_hit
120 machine event x_lit_hit
120 machine event g_hit
120 machine event g_lit_hit

=== own profile loops
--- play
@ config/config.yaml
#config_version=6
machine:
  min_balls: 0
game:
switches:
  s_start:
    number: 1
    debounce: quick
    tags: start
  s_x:
    number: 2
    debounce: quick
shots:
  x:
    switch: s_x
    profile: p
shot_groups:
  g:
    shots: x
shot_profiles:
  p:
    states:
    - name: a
    - name: b
    loop: yes
--- log
0 s_start 1
100 s_x 1
110 s_x 0
120 s_x 1
200
=> Yes
0 machine switch s_start active
0 machine event s_start_active
0 machine event sw_start
0 machine event game_will_start
0 machine event game_starting
0 machine event player_added
0 machine event game_started
0 machine event player_turn_will_start
0 machine event player_turn_starting
0 machine event player_turn_started
0 machine event ball_will_start
0 machine event ball_starting
0 machine event ball_started
100 machine switch s_x active
100 machine event s_x_active
100 machine event x_hit
100 machine event x_p_hit
100 machine event x_p_a_hit
100 machine event x_a_hit
100 machine event g_hit
100 machine event g_a_hit
100 machine event g_complete
100 machine event g_b_complete
110 machine switch s_x inactive
110 machine event s_x_inactive
120 machine switch s_x active
120 machine event s_x_active
120 machine event x_hit
120 machine event x_p_hit
120 machine event x_p_b_hit
120 machine event x_b_hit
120 machine event g_hit
120 machine event g_b_hit
120 machine event g_complete
120 machine event g_a_complete

=== lone shot
It has no events of a group.
--- play
@ config/config.yaml
#config_version=6
machine:
  min_balls: 0
game:
switches:
  s_start: {debounce: quick, tags: start}
  s_a: {debounce: quick}
  s_b: {debounce: quick}
  s_t: {debounce: quick}
shots:
  a: {switch: s_a, hit_events: s_b_active}
--- log
0 s_start 1
10 s_a 1
20 s_b 1
30 s_b 0
=> Yes
0 machine switch s_start active
0 machine event s_start_active
0 machine event sw_start
0 machine event game_will_start
0 machine event game_starting
0 machine event player_added
0 machine event game_started
0 machine event player_turn_will_start
0 machine event player_turn_starting
0 machine event player_turn_started
0 machine event ball_will_start
0 machine event ball_starting
0 machine event ball_started
10 machine switch s_a active
10 machine event s_a_active
10 machine event a_hit
10 machine event a_default_hit
10 machine event a_default_unlit_hit
10 machine event a_unlit_hit
20 machine switch s_b active
20 machine event s_b_active
20 machine event a_hit
20 machine event a_default_hit
20 machine event a_default_lit_hit
20 machine event a_lit_hit
30 machine switch s_b inactive
30 machine event s_b_inactive

=== hits without a player
--- play
@ config/config.yaml
#config_version=6
machine:
  min_balls: 0
game:
switches:
  s_start: {debounce: quick, tags: start}
  s_a: {debounce: quick}
  s_b: {debounce: quick}
  s_t: {debounce: quick}
shots:
  a: {switch: s_a}
--- log
0 s_a 1
=> Yes
0 machine switch s_a active
0 machine event s_a_active

=== group is complete at its last shot
Its entry comes before those of its shots.
--- play
@ config/config.yaml
#config_version=6
machine:
  min_balls: 0
game:
switches:
  s_start: {debounce: quick, tags: start}
  s_a: {debounce: quick}
  s_b: {debounce: quick}
  s_t: {debounce: quick}
shot_groups:
  g: {shots: [a, b]}
counters:
  c: {count_events: nothing}
shots:
  a: {switch: s_a}
  b: {switch: s_b}
--- log
0 s_start 1
10 s_a 1
20 s_a 0
30 s_a 1
40 s_b 1
=> Yes
0 machine switch s_start active
0 machine event s_start_active
0 machine event sw_start
0 machine event game_will_start
0 machine event game_starting
0 machine event player_added
0 machine event game_started
0 machine event player_turn_will_start
0 machine event player_turn_starting
0 machine event player_turn_started
0 machine event ball_will_start
0 machine event ball_starting
0 machine event ball_started
10 machine switch s_a active
10 machine event s_a_active
10 machine event a_hit
10 machine event a_default_hit
10 machine event a_default_unlit_hit
10 machine event a_unlit_hit
10 machine event g_hit
10 machine event g_unlit_hit
20 machine switch s_a inactive
20 machine event s_a_inactive
30 machine switch s_a active
30 machine event s_a_active
30 machine event a_hit
30 machine event a_default_hit
30 machine event a_default_lit_hit
30 machine event a_lit_hit
30 machine event g_hit
30 machine event g_lit_hit
40 machine switch s_b active
40 machine event s_b_active
40 machine event b_hit
40 machine event b_default_hit
40 machine event b_default_unlit_hit
40 machine event b_unlit_hit
40 machine event g_hit
40 machine event g_unlit_hit
40 machine event g_complete
40 machine event g_lit_complete

=== rotation moves the states
All are lit here, so that nothing else is seen of it.
--- play
@ config/config.yaml
#config_version=6
machine:
  min_balls: 0
game:
switches:
  s_start: {debounce: quick, tags: start}
  s_a: {debounce: quick}
  s_b: {debounce: quick}
  s_t: {debounce: quick}
shots:
  a: {switch: s_a}
  b: {switch: s_b}
  c: {hit_events: s_t_active}
shot_groups:
  g: {shots: [a, b, c], rotate_left_events: s_b_inactive, rotate_right_events: s_t_inactive}
--- log
0 s_start 1
10 s_a 1
20 s_b 1
25 s_t 1
30 s_b 0
40 s_t 0
50 s_b 1
60 s_b 0
70 s_t 1
=> Yes
0 machine switch s_start active
0 machine event s_start_active
0 machine event sw_start
0 machine event game_will_start
0 machine event game_starting
0 machine event player_added
0 machine event game_started
0 machine event player_turn_will_start
0 machine event player_turn_starting
0 machine event player_turn_started
0 machine event ball_will_start
0 machine event ball_starting
0 machine event ball_started
10 machine switch s_a active
10 machine event s_a_active
10 machine event a_hit
10 machine event a_default_hit
10 machine event a_default_unlit_hit
10 machine event a_unlit_hit
10 machine event g_hit
10 machine event g_unlit_hit
20 machine switch s_b active
20 machine event s_b_active
20 machine event b_hit
20 machine event b_default_hit
20 machine event b_default_unlit_hit
20 machine event b_unlit_hit
20 machine event g_hit
20 machine event g_unlit_hit
25 machine switch s_t active
25 machine event s_t_active
25 machine event c_hit
25 machine event c_default_hit
25 machine event c_default_unlit_hit
25 machine event c_unlit_hit
25 machine event g_hit
25 machine event g_unlit_hit
25 machine event g_complete
25 machine event g_lit_complete
30 machine switch s_b inactive
30 machine event s_b_inactive
40 machine switch s_t inactive
40 machine event s_t_inactive
50 machine switch s_b active
50 machine event s_b_active
50 machine event b_hit
50 machine event b_default_hit
50 machine event b_default_lit_hit
50 machine event b_lit_hit
50 machine event g_hit
50 machine event g_lit_hit
60 machine switch s_b inactive
60 machine event s_b_inactive
70 machine switch s_t active
70 machine event s_t_active
70 machine event c_hit
70 machine event c_default_hit
70 machine event c_default_lit_hit
70 machine event c_lit_hit
70 machine event g_hit
70 machine event g_lit_hit

=== rotation to the left and to the right
The lit state goes from a to b, back to a, and round to c.
--- play
@ config/config.yaml
#config_version=6
machine:
  min_balls: 0
game:
switches:
  s_start: {debounce: quick, tags: start}
  s_a: {debounce: quick}
  s_b: {debounce: quick}
  s_t: {debounce: quick}
  s_l: {debounce: quick}
  s_r: {debounce: quick}
shots:
  a: {switch: s_a}
  b: {switch: s_b}
  c: {hit_events: s_t_active}
shot_groups:
  g: {shots: [a, b, c], rotate_left_events: s_l_active, rotate_events: s_r_active}
--- log
0 s_start 1
10 s_a 1
20 s_r 1
30 s_b 1
40 s_l 1
50 s_l 0
60 s_l 1
70 s_t 1
=> Yes
0 machine switch s_start active
0 machine event s_start_active
0 machine event sw_start
0 machine event game_will_start
0 machine event game_starting
0 machine event player_added
0 machine event game_started
0 machine event player_turn_will_start
0 machine event player_turn_starting
0 machine event player_turn_started
0 machine event ball_will_start
0 machine event ball_starting
0 machine event ball_started
10 machine switch s_a active
10 machine event s_a_active
10 machine event a_hit
10 machine event a_default_hit
10 machine event a_default_unlit_hit
10 machine event a_unlit_hit
10 machine event g_hit
10 machine event g_unlit_hit
20 machine switch s_r active
20 machine event s_r_active
30 machine switch s_b active
30 machine event s_b_active
30 machine event b_hit
30 machine event b_default_hit
30 machine event b_default_lit_hit
30 machine event b_lit_hit
30 machine event g_hit
30 machine event g_lit_hit
40 machine switch s_l active
40 machine event s_l_active
50 machine switch s_l inactive
50 machine event s_l_inactive
60 machine switch s_l active
60 machine event s_l_active
70 machine switch s_t active
70 machine event s_t_active
70 machine event c_hit
70 machine event c_default_hit
70 machine event c_default_lit_hit
70 machine event c_lit_hit
70 machine event g_hit
70 machine event g_lit_hit

=== acts of a shot
It is enabled by an event, so that it is not at first; it moves on while it is disabled, and a hit does not move it.
--- play
@ config/config.yaml
#config_version=6
machine:
  min_balls: 0
game:
switches:
  s_start: {debounce: quick, tags: start}
  s_a: {debounce: quick}
  s_b: {debounce: quick}
  s_t: {debounce: quick}
  s_e: {debounce: quick}
shots:
  a:
    switch: s_a
    profile: three
    advance_events: s_t_active
    reset_events: s_t_inactive
    enable_events: s_e_active
    disable_events: s_e_inactive
shot_profiles:
  three:
    states: [{name: one}, {name: two}, {name: last}]
    advance_on_hit: no
--- log
0 s_start 1
10 s_a 1
20 s_a 0
30 s_t 1
40 s_e 1
50 s_a 1
60 s_a 0
70 s_t 0
80 s_a 1
90 s_a 0
100 s_e 0
110 s_a 1
=> Yes
0 machine switch s_start active
0 machine event s_start_active
0 machine event sw_start
0 machine event game_will_start
0 machine event game_starting
0 machine event player_added
0 machine event game_started
0 machine event player_turn_will_start
0 machine event player_turn_starting
0 machine event player_turn_started
0 machine event ball_will_start
0 machine event ball_starting
0 machine event ball_started
10 machine switch s_a active
10 machine event s_a_active
20 machine switch s_a inactive
20 machine event s_a_inactive
30 machine switch s_t active
30 machine event s_t_active
40 machine switch s_e active
40 machine event s_e_active
50 machine switch s_a active
50 machine event s_a_active
50 machine event a_hit
50 machine event a_three_hit
50 machine event a_three_two_hit
50 machine event a_two_hit
60 machine switch s_a inactive
60 machine event s_a_inactive
70 machine switch s_t inactive
70 machine event s_t_inactive
80 machine switch s_a active
80 machine event s_a_active
80 machine event a_hit
80 machine event a_three_hit
80 machine event a_three_one_hit
80 machine event a_one_hit
90 machine switch s_a inactive
90 machine event s_a_inactive
100 machine switch s_e inactive
100 machine event s_e_inactive
110 machine switch s_a active
110 machine event s_a_active

=== an advance completes no group
Nor does a hit that leaves the state as it is. A reset of the group makes all unlit.
--- play
@ config/config.yaml
#config_version=6
machine:
  min_balls: 0
game:
switches:
  s_start: {debounce: quick, tags: start}
  s_a: {debounce: quick}
  s_b: {debounce: quick}
  s_t: {debounce: quick}
shots:
  a: {switch: s_a, advance_events: s_t_active}
  b: {switch: s_b}
shot_groups:
  g: {shots: [a, b], reset_events: s_t_inactive}
--- log
0 s_start 1
10 s_b 1
20 s_t 1
30 s_a 1
40 s_t 0
50 s_a 0
60 s_a 1
=> Yes
0 machine switch s_start active
0 machine event s_start_active
0 machine event sw_start
0 machine event game_will_start
0 machine event game_starting
0 machine event player_added
0 machine event game_started
0 machine event player_turn_will_start
0 machine event player_turn_starting
0 machine event player_turn_started
0 machine event ball_will_start
0 machine event ball_starting
0 machine event ball_started
10 machine switch s_b active
10 machine event s_b_active
10 machine event b_hit
10 machine event b_default_hit
10 machine event b_default_unlit_hit
10 machine event b_unlit_hit
10 machine event g_hit
10 machine event g_unlit_hit
20 machine switch s_t active
20 machine event s_t_active
30 machine switch s_a active
30 machine event s_a_active
30 machine event a_hit
30 machine event a_default_hit
30 machine event a_default_lit_hit
30 machine event a_lit_hit
30 machine event g_hit
30 machine event g_lit_hit
40 machine switch s_t inactive
40 machine event s_t_inactive
50 machine switch s_a inactive
50 machine event s_a_inactive
60 machine switch s_a active
60 machine event s_a_active
60 machine event a_hit
60 machine event a_default_hit
60 machine event a_default_unlit_hit
60 machine event a_unlit_hit
60 machine event g_hit
60 machine event g_unlit_hit

=== shots of a mode keep their states
The row of the group comes after those of other texts.
--- play
@ config/config.yaml
#config_version=6
machine:
  min_balls: 0
game:
modes: m
switches:
  s_start: {debounce: quick, tags: start}
  s_a: {debounce: quick}
  s_b: {debounce: quick}
  s_t: {debounce: quick}
counters:
  c: {count_events: nothing}
@ modes/m/config/m.yaml
#config_version=6
mode: {start_events: s_t_active, stop_events: s_t_inactive}
timers:
  t: {}
shots:
  a: {switch: s_a}
  b: {switch: s_b}
shot_groups:
  g: {shots: [b, a]}
--- log
0 s_start 1
10 s_a 1
20 s_a 0
30 s_t 1
40 s_a 1
50 s_t 0
60 s_b 1
70 s_b 0
80 s_t 1
90 s_b 1
=> Yes
0 machine switch s_start active
0 machine event s_start_active
0 machine event sw_start
0 machine event game_will_start
0 machine event game_starting
0 machine event player_added
0 machine event game_started
0 machine event player_turn_will_start
0 machine event player_turn_starting
0 machine event player_turn_started
0 machine event ball_will_start
0 machine event ball_starting
0 machine event ball_started
10 machine switch s_a active
10 machine event s_a_active
20 machine switch s_a inactive
20 machine event s_a_inactive
30 machine switch s_t active
30 machine event s_t_active
30 machine event mode_m_will_start
30 machine event mode_m_starting
30 machine event mode_m_started
40 machine switch s_a active
40 machine event s_a_active
40 m event a_hit
40 m event a_default_hit
40 m event a_default_unlit_hit
40 m event a_unlit_hit
40 m event g_hit
40 m event g_unlit_hit
50 machine switch s_t inactive
50 machine event s_t_inactive
50 machine event mode_m_stopping
50 machine event mode_m_stopped
60 machine switch s_b active
60 machine event s_b_active
70 machine switch s_b inactive
70 machine event s_b_inactive
80 machine switch s_t active
80 machine event s_t_active
80 machine event mode_m_will_start
80 machine event mode_m_starting
80 machine event mode_m_started
90 machine switch s_b active
90 machine event s_b_active
90 m event b_hit
90 m event b_default_hit
90 m event b_default_unlit_hit
90 m event b_unlit_hit
90 m event g_hit
90 m event g_unlit_hit
90 m event g_complete
90 m event g_lit_complete

=== each player has states of their own
The turn is still that of the first.
--- play
@ config/config.yaml
#config_version=6
machine:
  min_balls: 0
game:
switches:
  s_start: {debounce: quick, tags: start}
  s_a: {debounce: quick}
  s_b: {debounce: quick}
  s_t: {debounce: quick}
shots:
  a: {switch: s_a}
--- log
0 s_start 1
10 s_a 1
20 s_start 0
30 s_start 1
40 s_a 0
50 s_a 1
=> Yes
0 machine switch s_start active
0 machine event s_start_active
0 machine event sw_start
0 machine event game_will_start
0 machine event game_starting
0 machine event player_added
0 machine event game_started
0 machine event player_turn_will_start
0 machine event player_turn_starting
0 machine event player_turn_started
0 machine event ball_will_start
0 machine event ball_starting
0 machine event ball_started
10 machine switch s_a active
10 machine event s_a_active
10 machine event a_hit
10 machine event a_default_hit
10 machine event a_default_unlit_hit
10 machine event a_unlit_hit
20 machine switch s_start inactive
20 machine event s_start_inactive
30 machine switch s_start active
30 machine event s_start_active
30 machine event sw_start
30 machine event player_added
40 machine switch s_a inactive
40 machine event s_a_inactive
50 machine switch s_a active
50 machine event s_a_active
50 machine event a_hit
50 machine event a_default_hit
50 machine event a_default_lit_hit
50 machine event a_lit_hit
";
