//! Logic blocks and timers: logs that are played.

pub const BLOCK_PLAYS: &str = "
=== counter play
It completes at its second hit, and is disabled then.
--- play
@ config/config.yaml
#config_version=6
switches:
  s_left:
    number: 1
counters:
  c:
    count_events: s_left_active
    count_complete_value: 2
--- log
100 s_left 1
200 s_left 0
300 s_left 1
400 s_left 0
500 s_left 1
600
=> Yes
105 machine switch s_left active
105 machine event s_left_active
105 machine event logicblock_c_updated
105 machine event logicblock_c_hit
205 machine switch s_left inactive
205 machine event s_left_inactive
305 machine switch s_left active
305 machine event s_left_active
305 machine event logicblock_c_updated
305 machine event logicblock_c_hit
305 machine event logicblock_c_complete
405 machine switch s_left inactive
405 machine event s_left_inactive
505 machine switch s_left active
505 machine event s_left_active

=== counter that goes on, and one that waits for its window
The window is 20 ms: a hit at 19 does not count, nor does it make the window longer.
--- play
@ config/config.yaml
#config_version=6
switches:
  s:
    debounce: quick
counters:
  down:
    count_events: s_active
    starting_count: 1
    count_complete_value: 0
    direction: down
    disable_on_complete: no
    events_when_hit: down_hit
  slow:
    count_events: s_active
    multiple_hit_window: 20
    enable_events: s_inactive
    events_when_hit: slow_hit
--- log
0 s 1
10 s 0
20 s 1
30 s 0
39 s 1
39 s 0
40 s 1
=> Yes
0 machine switch s active
0 machine event s_active
0 machine event logicblock_down_updated
0 machine event down_hit
0 machine event logicblock_down_complete
10 machine switch s inactive
10 machine event s_inactive
20 machine switch s active
20 machine event s_active
20 machine event logicblock_down_updated
20 machine event down_hit
20 machine event logicblock_down_complete
20 machine event logicblock_slow_updated
20 machine event slow_hit
30 machine switch s inactive
30 machine event s_inactive
39 machine switch s active
39 machine event s_active
39 machine event logicblock_down_updated
39 machine event down_hit
39 machine event logicblock_down_complete
39 machine switch s inactive
39 machine event s_inactive
40 machine switch s active
40 machine event s_active
40 machine event logicblock_down_updated
40 machine event down_hit
40 machine event logicblock_down_complete
40 machine event logicblock_slow_updated
40 machine event slow_hit

=== accrual out of order
--- play
@ config/config.yaml
#config_version=6
switches:
  s_a:
    number: 0
    debounce: quick
  s_b:
    number: 1
    debounce: quick
accruals:
  q:
    events:
    - s_a_active
    - s_b_active
--- log
0 s_b 1
10 s_a 1
20
=> Yes
0 machine switch s_b active
0 machine event s_b_active
0 machine event logicblock_q_updated
0 machine event logicblock_q_hit
10 machine switch s_a active
10 machine event s_a_active
10 machine event logicblock_q_updated
10 machine event logicblock_q_hit
10 machine event logicblock_q_complete

=== sequence out of order
--- play
@ config/config.yaml
#config_version=6
switches:
  s_a:
    number: 0
    debounce: quick
  s_b:
    number: 1
    debounce: quick
sequences:
  q:
    events:
    - s_a_active
    - s_b_active
--- log
0 s_b 1
10 s_a 1
20
=> Yes
0 machine switch s_b active
0 machine event s_b_active
10 machine switch s_a active
10 machine event s_a_active
10 machine event logicblock_q_updated
10 machine event logicblock_q_hit

=== three step accrual
--- play
@ config/config.yaml
#config_version=6
switches:
  s_a:
    number: 0
    debounce: quick
  s_b:
    number: 1
    debounce: quick
  s_c:
    number: 2
    debounce: quick
accruals:
  q:
    events:
    - s_a_active
    - s_b_active
    - s_c_active
--- log
0 s_b 1
10 s_a 1
20 s_c 1
=> Yes
0 machine switch s_b active
0 machine event s_b_active
0 machine event logicblock_q_updated
0 machine event logicblock_q_hit
10 machine switch s_a active
10 machine event s_a_active
10 machine event logicblock_q_updated
10 machine event logicblock_q_hit
20 machine switch s_c active
20 machine event s_c_active
20 machine event logicblock_q_updated
20 machine event logicblock_q_hit
20 machine event logicblock_q_complete

=== accrual in any order, sequence in its own
--- play
@ config/config.yaml
#config_version=6
switches:
  s_a:
    debounce: quick
  s_b:
    debounce: quick
accruals:
  any:
    events:
    - s_a_active
    - s_b_active
sequences:
  own:
    events:
    - s_a_active
    - s_b_active
--- log
0 s_b 1
10 s_a 1
20
=> Yes
0 machine switch s_b active
0 machine event s_b_active
0 machine event logicblock_any_updated
0 machine event logicblock_any_hit
10 machine switch s_a active
10 machine event s_a_active
10 machine event logicblock_any_updated
10 machine event logicblock_any_hit
10 machine event logicblock_any_complete
10 machine event logicblock_own_updated
10 machine event logicblock_own_hit

=== sequence that takes one event for two steps
Both bindings run, in the order of the plan.
--- play
@ config/config.yaml
#config_version=6
switches:
  s:
    debounce: quick
sequences:
  twice:
    events:
    - s_active
    - s_active
    events_when_hit: step
    events_when_complete: done
--- log
0 s 1
=> Yes
0 machine switch s active
0 machine event s_active
0 machine event logicblock_twice_updated
0 machine event step
0 machine event logicblock_twice_updated
0 machine event step
0 machine event done

=== block that keeps its state for each player
It does nothing, since there is no player.
--- play
@ config/config.yaml
#config_version=6
switches:
  s:
    debounce: quick
counters:
  hits:
    count_events: s_active
    persist_state: yes
--- log
0 s 1
=> Yes
0 machine switch s active
0 machine event s_active
";

pub const TIMER_PLAYS: &str = "
=== mode stop ends timer
At 2000 the tick comes before the line, and then the mode stops: nothing of it is due any more.
--- play
@ config/config.yaml
#config_version=6
modes: m
switches:
  s_go:
    number: 1
    debounce: quick
  s_stop:
    number: 2
    debounce: quick
@ modes/m/config/m.yaml
#config_version=6
mode:
  game_mode: no
  start_events: s_go_active
  stop_events: s_stop_active
timers:
  t:
    end_value: 3
    start_running: yes
--- log
0 s_go 1
2000 s_stop 1
5000
=> Yes
0 machine switch s_go active
0 machine event s_go_active
0 machine event mode_m_will_start
0 machine event mode_m_starting
0 machine event mode_m_started
0 m event timer_t_started
1000 m event timer_t_tick
2000 m event timer_t_tick
2000 machine switch s_stop active
2000 machine event s_stop_active
2000 machine event mode_m_stopping
2000 machine event mode_m_stopped

=== timer completes once
--- play
@ config/config.yaml
#config_version=6
modes: m
switches:
  s_go:
    number: 1
    debounce: quick
  s_stop:
    number: 2
    debounce: quick
@ modes/m/config/m.yaml
#config_version=6
mode:
  game_mode: no
  start_events: s_go_active
  stop_events: s_stop_active
timers:
  t:
    end_value: 5
    start_running: yes
--- log
0 s_go 1
86400000
=> Yes
0 machine switch s_go active
0 machine event s_go_active
0 machine event mode_m_will_start
0 machine event mode_m_starting
0 machine event mode_m_started
0 m event timer_t_started
1000 m event timer_t_tick
2000 m event timer_t_tick
3000 m event timer_t_tick
4000 m event timer_t_tick
5000 m event timer_t_tick
5000 m event timer_t_complete

=== timer that goes down completes once
--- play
@ config/config.yaml
#config_version=6
modes: m
switches:
  s_go:
    debounce: quick
@ modes/m/config/m.yaml
#config_version=6
mode:
  game_mode: no
  start_events: s_go_active
timers:
  t:
    start_value: 2
    direction: down
    tick_interval: 500ms
    control_events:
    - event: timer_t_complete
      action: jump
      value: 9
    - event: s_go_active
      action: start
    - event: s_go_inactive
      action: start
--- log
0 s_go 1
100 s_go 0
200 s_go 1
86400000
=> Yes
0 machine switch s_go active
0 machine event s_go_active
0 machine event mode_m_will_start
0 machine event mode_m_starting
0 machine event mode_m_started
100 machine switch s_go inactive
100 machine event s_go_inactive
100 m event timer_t_started
200 machine switch s_go active
200 machine event s_go_active
600 m event timer_t_tick
1100 m event timer_t_tick
1100 m event timer_t_complete

=== timer that is paused, moved and started again
--- play
@ config/config.yaml
#config_version=6
modes: m
switches:
  s_go:
    debounce: quick
  s_pause:
    debounce: quick
  s_more:
    debounce: quick
@ modes/m/config/m.yaml
#config_version=6
mode:
  game_mode: no
  start_events: s_go_active
timers:
  t:
    end_value: 10
    start_running: yes
    restart_on_complete: yes
    control_events:
    - event: s_pause_active
      action: pause
    - event: s_pause_inactive
      action: start
    - event: s_more_active
      action: add
      value: 9
    - event: s_more_inactive
      action: stop
--- log
0 s_go 1
500 s_pause 1
3000 s_pause 0
4500 s_more 1
5000 s_more 0
9000
=> Yes
0 machine switch s_go active
0 machine event s_go_active
0 machine event mode_m_will_start
0 machine event mode_m_starting
0 machine event mode_m_started
0 m event timer_t_started
500 machine switch s_pause active
500 machine event s_pause_active
500 m event timer_t_paused
3000 machine switch s_pause inactive
3000 machine event s_pause_inactive
3000 m event timer_t_started
4000 m event timer_t_tick
4500 machine switch s_more active
4500 machine event s_more_active
4500 m event timer_t_complete
4500 m event timer_t_started
5000 machine switch s_more inactive
5000 machine event s_more_inactive
5000 m event timer_t_stopped
";
