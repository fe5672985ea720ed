//! Switches, and events that feed each other: logs that are played.

pub const SWITCH_PLAYS: &str = "
=== one switch play
--- play
(one switch)
--- log
100 s_left 1
200
=> Yes
105 machine switch s_left active
105 machine event s_left_active
105 machine event a
105 machine event b

=== bounce is filtered
--- play
(one switch)
--- log
100 s_left 1
103 s_left 0
200
=> Yes

=== normal switch both ways
--- play
(one switch)
--- log
100 s_left 1
105 s_left 0
200
=> Yes
105 machine switch s_left active
105 machine event s_left_active
105 machine event a
105 machine event b
110 machine switch s_left inactive
110 machine event s_left_inactive

=== log goes backwards
--- play
(one switch)
--- log
100 s_left 1
99 s_left 0
200
=> Refused
refused 2 1 Backwards
105 machine switch s_left active
105 machine event s_left_active
105 machine event a
105 machine event b

=== refused log lines
--- play
(one switch)
--- log
5 nope 1
x
=> Refused
refused 1 3 NoSuchSwitch
refused 2 8 BadLine

=== moment too late
--- play
(one switch)
--- log
1099511627776 s_left 1
=> Refused
refused 1 2 TooLate

=== last moment without alarm
--- play
(one switch)
--- log
1099511627775 s_left 1
=> Yes

=== moment above u64
--- play
(one switch)
--- log
18446744073709551616
=> Refused
refused 1 8 BadLine

=== moments at and above the last
--- play
(one switch)
--- log
1099511627775 s_left 1
1099511627776 s_left 0
18446744073709551616
=> Refused
refused 2 2 TooLate
refused 3 8 BadLine

=== closed quick switch
--- play
@ config/config.yaml
#config_version=6
switches:
  s_left:
    number: 1
    type: NC
    debounce: quick
    tags: lane
--- log
0 s_left 1
7 s_left 0
10
=> Yes
7 machine switch s_left active
7 machine event s_left_active
7 machine event sw_lane

=== posts of a switch
The posts of a switch come in their order, at once where it is quick.
--- play
@ config/config.yaml
#config_version=6
switches:
  s:
    events_when_deactivated: gone
    events_when_activated: [here, there]
    debounce: quick
    tags: a b
--- log
3 s 1
3 s 0
=> Yes
3 machine switch s active
3 machine event s_active
3 machine event sw_a
3 machine event sw_b
3 machine event here
3 machine event there
3 machine switch s inactive
3 machine event s_inactive
3 machine event gone

=== closed normal switch
A closed switch that is not quick waits 5 ms like any other.
--- play
@ config/config.yaml
#config_version=6
switches:
  s: {type: NC, debounce: normal}
--- log
1 s 0
4 s 1
10 s 0
20
=> Yes
15 machine switch s active
15 machine event s_active

=== twice posted play
--- play
(twice posted)
--- log
100 s_left 1
200
=> Yes
105 machine switch s_left active
105 machine event s_left_active
105 machine event a
105 machine event b
105 machine event b

=== first posted is first handled
The events of a fan come before those to which the first of them leads: first posted, first
handled.
--- play
@ config/config.yaml
#config_version=6
switches:
  s: {number: 1, debounce: quick}
event_player:
  s_active: a, b
  a: c
  b: d
  c: d
--- log
7 s 1
=> Yes
7 machine switch s active
7 machine event s_active
7 machine event a
7 machine event b
7 machine event c
7 machine event d
7 machine event d
";
