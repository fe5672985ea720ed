//! Rows whose logs move coils.

/// Coil players, and modes that stop.
pub const COIL_PLAYS: &str = "
=== pulse before ready is skipped
--- play
@ config/config.yaml
#config_version=6
switches:
  s_k:
    number: 1
    debounce: quick
coils:
  c_up:
    default_pulse_ms: 20
coil_player:
  s_k_active:
    c_up: pulse
--- log
105 s_k 1
110 s_k 0
120 s_k 1
130 s_k 0
145 s_k 1
200
=> Yes
105 machine switch s_k active
105 machine event s_k_active
105 machine coil c_up pulse 20 1000
110 machine switch s_k inactive
110 machine event s_k_inactive
120 machine switch s_k active
120 machine event s_k_active
120 machine skip c_up pulse
130 machine switch s_k inactive
130 machine event s_k_inactive
145 machine switch s_k active
145 machine event s_k_active
145 machine coil c_up pulse 20 1000

=== hold with permission
--- play
@ config/config.yaml
#config_version=6
switches:
  s_k:
    number: 1
    debounce: quick
coils:
  c_up:
    default_pulse_ms: 20
    default_hold_power: 0.25
coil_player:
  s_k_active:
    c_up: enable
--- log
105 s_k 1
200
=> Yes
105 machine switch s_k active
105 machine event s_k_active
105 machine coil c_up enable 250
200 machine off c_up

=== actions that are skipped
A coil is off already, or held already. What is written for a pulse is sent.
--- play
@ config/config.yaml
#config_version=6
switches:
  s_a: {debounce: quick}
  s_b: {debounce: quick}
coils:
  c: {allow_enable: yes}
coil_player:
  s_a_active: {c: enable}
  s_b_active: {c: disable}
  s_a_inactive: {c: {action: pulse, pulse_ms: 5, pulse_power: 0.5}}
--- log
0 s_b 1
1 s_a 1
2 s_a 0
3 s_a 1
4 s_b 0
5 s_b 1
6 s_a 0
7
=> Yes
0 machine switch s_b active
0 machine event s_b_active
0 machine skip c disable
1 machine switch s_a active
1 machine event s_a_active
1 machine coil c enable 1000
2 machine switch s_a inactive
2 machine event s_a_inactive
2 machine skip c pulse
3 machine switch s_a active
3 machine event s_a_active
3 machine skip c enable
4 machine switch s_b inactive
4 machine event s_b_inactive
5 machine switch s_b active
5 machine event s_b_active
5 machine coil c disable
6 machine switch s_a inactive
6 machine event s_a_inactive
6 machine coil c pulse 5 500
7 machine off c

=== coils go off by first use
--- play
@ config/config.yaml
#config_version=6
coil_player:
  s_k_active:
    c_b: enable
    c_a: {action: enable, hold_power: 0.5}
switches:
  s_k: {debounce: quick}
coils:
  c_a: {allow_enable: yes}
  c_b: {allow_enable: yes}
--- log
5 s_k 1
9
=> Yes
5 machine switch s_k active
5 machine event s_k_active
5 machine coil c_b enable 1000
5 machine coil c_a enable 500
9 machine off c_b
9 machine off c_a

=== mode stop releases coil
--- play
@ config/config.yaml
#config_version=6
modes: m
switches:
  s_go:
    number: 1
    debounce: quick
  s_stop:
    number: 2
    debounce: quick
coils:
  c_h:
    allow_enable: yes
@ modes/m/config/m.yaml
#config_version=6
mode:
  game_mode: no
  start_events: s_go_active
  stop_events: s_stop_active
coil_player:
  mode_m_started: {c_h: enable}
--- log
0 s_go 1
2000 s_stop 1
5000
=> Yes
0 machine switch s_go active
0 machine event s_go_active
0 machine event mode_m_will_start
0 machine event mode_m_starting
0 machine event mode_m_started
0 m coil c_h enable 1000
2000 machine switch s_stop active
2000 machine event s_stop_active
2000 machine event mode_m_stopping
2000 m coil c_h disable
2000 machine event mode_m_stopped

=== mode stop releases no coil of the machine
The coils of the mode are put off by their numbers. A pulse of the mode goes on.
--- play
@ config/config.yaml
#config_version=6
modes: m
switches:
  s_go: {debounce: quick}
coils:
  c_a: {allow_enable: yes}
  c_b: {allow_enable: yes}
  c_c: {allow_enable: yes}
  c_p: {default_pulse_ms: 100}
coil_player:
  s_go_active: {c_b: enable}
@ modes/m/config/m.yaml
#config_version=6
mode:
  game_mode: no
  start_events: s_go_active
  stop_events: s_go_inactive
coil_player:
  mode_m_started: {c_c: enable, c_p: pulse, c_a: enable}
--- log
0 s_go 1
10 s_go 0
20
=> Yes
0 machine switch s_go active
0 machine event s_go_active
0 machine coil c_b enable 1000
0 machine event mode_m_will_start
0 machine event mode_m_starting
0 machine event mode_m_started
0 m coil c_c enable 1000
0 m coil c_p pulse 100 1000
0 m coil c_a enable 1000
10 machine switch s_go inactive
10 machine event s_go_inactive
10 machine event mode_m_stopping
10 m coil c_a disable
10 m coil c_c disable
10 machine event mode_m_stopped
20 machine off c_b
20 machine off c_p

=== mode puts off what the machine holds
--- play
@ config/config.yaml
#config_version=6
modes: m
switches:
  s_go: {debounce: quick}
  s_k: {debounce: quick}
coils:
  c: {allow_enable: yes}
coil_player:
  s_go_active: {c: enable}
@ modes/m/config/m.yaml
#config_version=6
mode:
  game_mode: no
  start_events: s_go_active
coil_player:
  s_k_active: {c: pulse}
  s_k_inactive: {c: disable}
--- log
0 s_go 1
5 s_k 1
10 s_k 0
15 s_k 1
20
=> Yes
0 machine switch s_go active
0 machine event s_go_active
0 machine coil c enable 1000
0 machine event mode_m_will_start
0 machine event mode_m_starting
0 machine event mode_m_started
5 machine switch s_k active
5 machine event s_k_active
5 m skip c pulse
10 machine switch s_k inactive
10 machine event s_k_inactive
10 m coil c disable
15 machine switch s_k active
15 machine event s_k_active
15 m coil c pulse 10 1000
20 machine off c
";

/// Flippers and autofire coils.
pub const FLIPPER_PLAYS: &str = "
=== flipper
--- play
@ config/config.yaml
#config_version=6
coils:
  c_m:
    default_pulse_ms: 20
  c_h:
    allow_enable: yes
switches:
  s_on:
    number: 1
    debounce: quick
  s_f:
    number: 2
flippers:
  f:
    main_coil: c_m
    hold_coil: c_h
    activation_switch: s_f
    enable_events: s_on_active
--- log
0 s_f 1
5 s_f 0
10 s_on 1
20 s_f 1
40 s_f 0
50
=> Yes
0 machine switch s_f active
0 machine event s_f_active
5 machine switch s_f inactive
5 machine event s_f_inactive
10 machine switch s_on active
10 machine event s_on_active
20 machine switch s_f active
20 machine coil c_m pulse 20 1000
20 machine coil c_h enable 1000
20 machine event s_f_active
40 machine switch s_f inactive
40 machine coil c_h disable
40 machine event s_f_inactive

=== flipper that is enabled and disabled while its switch is active
It waits for the switch to become active again, and goes off when it is disabled.
--- play
@ config/config.yaml
#config_version=6
coils:
  c_m:
  c_h: {default_hold_power: 0.3}
switches:
  s_on: {debounce: quick}
  s_f:
flippers:
  f:
    main_coil: c_m
    hold_coil: c_h
    activation_switch: s_f
    enable_events: s_on_active
    disable_events: s_on_inactive
--- log
0 s_f 1
10 s_on 1
20 s_f 0
30 s_f 1
40 s_on 0
50 s_f 0
60
=> Yes
0 machine switch s_f active
0 machine event s_f_active
10 machine switch s_on active
10 machine event s_on_active
20 machine switch s_f inactive
20 machine event s_f_inactive
30 machine switch s_f active
30 machine coil c_m pulse 10 1000
30 machine coil c_h enable 300
30 machine event s_f_active
40 machine switch s_on inactive
40 machine event s_on_inactive
40 machine coil c_h disable
50 machine switch s_f inactive
50 machine event s_f_inactive

=== flipper of one coil that may be held
--- play
@ config/config.yaml
#config_version=6
coils:
  c_m: {allow_enable: yes, default_hold_power: 0.25}
switches:
  s_on: {debounce: quick}
  s_f:
flippers:
  f:
    main_coil: c_m
    activation_switch: s_f
    enable_events: s_on_active
--- log
10 s_on 1
20 s_f 1
40 s_f 0
50 s_f 1
60
=> Yes
10 machine switch s_on active
10 machine event s_on_active
20 machine switch s_f active
20 machine coil c_m enable 250
20 machine event s_f_active
40 machine switch s_f inactive
40 machine coil c_m disable
40 machine event s_f_inactive
50 machine switch s_f active
50 machine coil c_m enable 250
50 machine event s_f_active
60 machine off c_m

=== flipper of one coil that may not be held
Nothing puts it off: its pulse ends.
--- play
@ config/config.yaml
#config_version=6
coils:
  c_m: {default_pulse_ms: 30, default_pulse_power: 0.8}
switches:
  s_on: {debounce: quick}
  s_f:
flippers:
  f:
    main_coil: c_m
    activation_switch: s_f
    enable_events: s_on_active
--- log
10 s_on 1
20 s_f 1
40 s_f 0
50
=> Yes
10 machine switch s_on active
10 machine event s_on_active
20 machine switch s_f active
20 machine coil c_m pulse 30 800
20 machine event s_f_active
40 machine switch s_f inactive
40 machine event s_f_inactive

=== autofire coil
Its switch is quick. A pulse that comes before the coil is ready is skipped.
--- play
@ config/config.yaml
#config_version=6
coils:
  c:
switches:
  s_on: {debounce: quick}
  s:
autofire_coils:
  a:
    coil: c
    switch: s
    enable_events: s_on_active
    disable_events: s_on_inactive
--- log
0 s 1
1 s 0
10 s_on 1
20 s 1
25 s 0
30 s 1
31 s 0
40 s 1
50 s_on 0
60 s 0
70 s 1
80
=> Yes
0 machine switch s active
0 machine event s_active
1 machine switch s inactive
1 machine event s_inactive
10 machine switch s_on active
10 machine event s_on_active
20 machine switch s active
20 machine coil c pulse 10 1000
20 machine event s_active
25 machine switch s inactive
25 machine event s_inactive
30 machine switch s active
30 machine skip c pulse
30 machine event s_active
31 machine switch s inactive
31 machine event s_inactive
40 machine switch s active
40 machine coil c pulse 10 1000
40 machine event s_active
50 machine switch s_on inactive
50 machine event s_on_inactive
60 machine switch s inactive
60 machine event s_inactive
70 machine switch s active
70 machine event s_active

=== switch of two devices
They are told in the order of their rows. A switch that is written as normal stays so.
--- play
@ config/config.yaml
#config_version=6
coils:
  c_a:
  c_f:
switches:
  s_on: {debounce: quick}
  s: {debounce: normal}
flippers:
  f:
    main_coil: c_f
    activation_switch: s
    enable_events: s_on_active
autofire_coils:
  a:
    coil: c_a
    switch: s
    enable_events: s_on_active
--- log
10 s_on 1
20 s 1
30
=> Yes
10 machine switch s_on active
10 machine event s_on_active
25 machine switch s active
25 machine coil c_f pulse 10 1000
25 machine coil c_a pulse 10 1000
25 machine event s_active
30 machine off c_a
30 machine off c_f
";

/// Boards that fault, and how many commands they took.
pub const FAULT_PLAYS: &str = "
=== board takes the commands of the play and no others
--- play
@ config/config.yaml
#config_version=6
switches:
  s_k:
    number: 1
    debounce: quick
coils:
  c_up:
    default_pulse_ms: 20
coil_player:
  s_k_active:
    c_up: pulse
--- log
105 s_k 1
110 s_k 0
120 s_k 1
130 s_k 0
145 s_k 1
200
--- board
fault 99
=> Yes 2
105 machine switch s_k active
105 machine event s_k_active
105 machine coil c_up pulse 20 1000
110 machine switch s_k inactive
110 machine event s_k_inactive
120 machine switch s_k active
120 machine event s_k_active
120 machine skip c_up pulse
130 machine switch s_k inactive
130 machine event s_k_inactive
145 machine switch s_k active
145 machine event s_k_active
145 machine coil c_up pulse 20 1000

=== board faults once
The coil of the command is put off, though it is not on.
--- play
@ config/config.yaml
#config_version=6
switches:
  s_k:
    number: 1
    debounce: quick
coils:
  c_up:
    default_pulse_ms: 20
coil_player:
  s_k_active:
    c_up: pulse
--- log
105 s_k 1
110 s_k 0
120 s_k 1
130 s_k 0
145 s_k 1
200
--- board
fault 2
=> Refused 2
105 machine switch s_k active
105 machine event s_k_active
105 machine coil c_up pulse 20 1000
110 machine switch s_k inactive
110 machine event s_k_inactive
120 machine switch s_k active
120 machine event s_k_active
120 machine skip c_up pulse
130 machine switch s_k inactive
130 machine event s_k_inactive
145 machine switch s_k active
145 machine event s_k_active
refused 5 4 BoardFault
145 machine off c_up

=== board faults onwards
--- play
@ config/config.yaml
#config_version=6
switches:
  s_k:
    number: 1
    debounce: quick
coils:
  c_up:
    default_pulse_ms: 20
coil_player:
  s_k_active:
    c_up: pulse
--- log
105 s_k 1
110 s_k 0
120 s_k 1
130 s_k 0
145 s_k 1
200
--- board
faults 2
=> Refused 1
105 machine switch s_k active
105 machine event s_k_active
105 machine coil c_up pulse 20 1000
110 machine switch s_k inactive
110 machine event s_k_inactive
120 machine switch s_k active
120 machine event s_k_active
120 machine skip c_up pulse
130 machine switch s_k inactive
130 machine event s_k_inactive
145 machine switch s_k active
145 machine event s_k_active
refused 5 4 BoardFault

=== board faults at no command of the play
--- play
@ config/config.yaml
#config_version=6
switches:
  s_k: {debounce: quick}
coils:
  c: {allow_enable: yes}
coil_player:
  s_k_active: {c: enable}
--- log
5 s_k 1
9
--- board
faults 3
=> Yes 2
5 machine switch s_k active
5 machine event s_k_active
5 machine coil c enable 1000
9 machine off c

=== board faults when a coil is put off
No line is refused for that.
--- play
@ config/config.yaml
#config_version=6
switches:
  s_k: {debounce: quick}
coils:
  c_a: {allow_enable: yes}
  c_b: {allow_enable: yes}
coil_player:
  s_k_active: {c_a: enable, c_b: enable}
--- log
5 s_k 1
9
--- board
fault 3
=> Yes 3
5 machine switch s_k active
5 machine event s_k_active
5 machine coil c_a enable 1000
5 machine coil c_b enable 1000
9 machine off c_b

=== board faults in mid-cascade
The rest of the cascade is not shown.
--- play
@ config/config.yaml
#config_version=6
coil_player:
  s_k_active:
    c_b: enable
    c_a: enable
    c_c: enable
switches:
  s_k: {debounce: quick}
coils:
  c_a: {allow_enable: yes}
  c_b: {allow_enable: yes}
  c_c: {allow_enable: yes}
event_player:
  s_k_active: later
--- log
5 s_k 1
x
9 s_k 0
--- board
fault 2
=> Refused 3
5 machine switch s_k active
5 machine event s_k_active
5 machine coil c_b enable 1000
refused 1 4 BoardFault
5 machine off c_b
5 machine off c_a

=== board faults at an alarm
The line of the log is refused before whose moment the alarm comes.
--- play
@ config/config.yaml
#config_version=6
switches:
  s_k: {debounce: normal}
coils:
  c:
coil_player:
  s_k_active: {c: pulse}
--- log
0 s_k 1
200
--- board
fault 1
=> Refused 1
5 machine switch s_k active
5 machine event s_k_active
refused 2 4 BoardFault
5 machine off c
";
