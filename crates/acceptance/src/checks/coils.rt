//! Coils, coil players, flippers and autofire coils: bundles that are checked.

use crate::checks::row::assert_rows;

const CHECKS: &str = "
=== pulse above limit
--- check
@ config/config.yaml
#config_version=6
coils:
  c_up:
    max_pulse_ms: 20
coil_player:
  kick:
    c_up: {action: pulse, pulse_ms: 30}
=> Refused
fault 2 PulseLimit config/config.yaml 7 c_up
no

=== pulse at limit
--- check
@ config/config.yaml
#config_version=6
coils:
  c_up:
    max_pulse_ms: 20
coil_player:
  kick:
    c_up: {action: pulse, pulse_ms: 20}
=> Yes
yes
pinball-certificate 2
bound 0
event kick 2

=== hold without permission
--- check
@ config/config.yaml
#config_version=6
switches:
  s_k:
    number: 1
    debounce: quick
coils:
  c_up:
    default_pulse_ms: 20
coil_player:
  s_k_active:
    c_up: enable
=> Refused
fault 4 HoldNotAllowed config/config.yaml 11 c_up
no

=== power above limit
--- check
@ config/config.yaml
#config_version=6
coils:
  c_up:
    default_pulse_power: 0.5
    max_pulse_power: 0.4
=> Refused
fault 3 PowerLimit config/config.yaml 3 c_up
no

=== unknown coil
--- check
@ config/config.yaml
#config_version=6
coil_player:
  kick:
    c_no: pulse
=> Refused
fault 1 Name config/config.yaml 4 c_no
no

=== mode stop releases coil
The end of the mode pays for the coil that the mode may hold.
--- check
@ config/config.yaml
#config_version=6
modes: m
switches:
  s_go:
    number: 1
    debounce: quick
  s_stop:
    number: 2
    debounce: quick
coils:
  c_h:
    allow_enable: yes
@ modes/m/config/m.yaml
#config_version=6
mode:
  game_mode: no
  start_events: s_go_active
  stop_events: s_stop_active
coil_player:
  mode_m_started: {c_h: enable}
=> Yes
yes
pinball-certificate 2
bound 9
switch s_go 9
switch s_stop 5
event s_go_active 8
event s_go_inactive 1
event s_stop_active 4
event s_stop_inactive 1
event mode_m_will_start 7
event mode_m_starting 6
event mode_m_started 5
event mode_m_stopping 3
event mode_m_stopped 1
event ball_ending 4

=== costs of flipper
Its switch costs two commands when it becomes active, and one when it becomes inactive. So does its
end, by its event.
--- check
@ config/config.yaml
#config_version=6
coils:
  c_m:
  c_h: {allow_enable: yes}
switches:
  s_f:
flippers:
  f:
    main_coil: c_m
    hold_coil: c_h
    activation_switch: s_f
=> Yes
yes
pinball-certificate 2
bound 4
switch s_f 4
event s_f_active 1
event s_f_inactive 1
event ball_started 1
event ball_will_end 2

=== costs of autofire coil
--- check
@ config/config.yaml
#config_version=6
coils:
  c:
switches:
  s:
autofire_coils:
  a:
    coil: c
    switch: s
    enable_events: go
=> Yes
yes
pinball-certificate 2
bound 3
switch s 3
event s_active 1
event s_inactive 1
event go 1
event ball_will_end 1
";

// What a text asks of coils that they may not do, or of coils that there are not.
const REFUSALS: &str = "
=== written pulse counts whatever the action
--- check
@ config/config.yaml
#config_version=6
coils:
  c_up:
    max_pulse_ms: 20
    allow_enable: yes
coil_player:
  kick:
    c_up: {action: enable, pulse_ms: 30}
  rest:
    c_up: {action: disable, pulse_ms: 21}
=> Refused
fault 2 PulseLimit config/config.yaml 8 c_up
fault 2 PulseLimit config/config.yaml 10 c_up
no

=== two wrong powers are listed once
--- check
@ config/config.yaml
#config_version=6
coils:
  c_up:
    default_pulse_power: 0.5
    max_pulse_power: 0.4
    default_hold_power: 0.35
    max_hold_power: 0.3
coil_player:
  kick:
    c_up: {action: disable, pulse_power: 0.41, hold_power: 0.31}
=> Refused
fault 3 PowerLimit config/config.yaml 3 c_up
fault 3 PowerLimit config/config.yaml 10 c_up
no

=== defaults that are not written count
A pulse is of 10 ms, and of full power.
--- check
@ config/config.yaml
#config_version=6
coils:
  c_short:
    max_pulse_ms: 5
  c_weak:
    max_pulse_power: 0.999
  c_ten:
    max_pulse_ms: 10
=> Refused
fault 2 PulseLimit config/config.yaml 3 c_short
fault 3 PowerLimit config/config.yaml 5 c_weak
no

=== faults of one line
The greatest power of a coil that may not be held is 0.
--- check
@ config/config.yaml
#config_version=6
coil_player:
  kick:
    c: {action: enable, hold_power: 0.5, pulse_ms: 11}
coils:
  c:
=> Refused
fault 2 PulseLimit config/config.yaml 4 c
fault 3 PowerLimit config/config.yaml 4 c
fault 4 HoldNotAllowed config/config.yaml 4 c
no

=== undefined hold coil
Whether it may be held is not asked.
--- check
@ config/config.yaml
#config_version=6
coils:
  c_m:
switches:
  s_f:
flippers:
  f:
    main_coil: c_m
    hold_coil: c_no
    activation_switch: s_f
=> Refused
fault 1 Name config/config.yaml 9 c_no
no

=== hold coil without permission
--- check
@ config/config.yaml
#config_version=6
coils:
  c_m:
  c_h:
switches:
  s_f:
flippers:
  f:
    main_coil: c_m
    hold_coil: c_h
    activation_switch: s_f
=> Refused
fault 4 HoldNotAllowed config/config.yaml 8 c_h
no

=== undefined coils and switches of devices
--- check
@ config/config.yaml
#config_version=6
flippers:
  f:
    activation_switch: s_no
    main_coil: c_no
autofire_coils:
  a:
    coil: c_none
    switch: s_none
=> Refused
fault 1 Name config/config.yaml 4 s_no
fault 1 Name config/config.yaml 5 c_no
fault 1 Name config/config.yaml 8 c_none
fault 1 Name config/config.yaml 9 s_none
no

=== coil player of a mode
Its coils and their limits are those of the machine.
--- check
@ config/config.yaml
#config_version=6
modes: m
coils:
  c: {max_pulse_ms: 20}
@ modes/m/config/m.yaml
#config_version=6
coil_player:
  kick:
    c: {action: pulse, pulse_ms: 21}
    c_no: enable
=> Refused
fault 2 PulseLimit modes/m/config/m.yaml 4 c
fault 1 Name modes/m/config/m.yaml 5 c_no
no
";

const LIMITS: &str = "
=== coil player of 1,025 coils
--- check
@ config/config.yaml
#config_version=6
coil_player:
  kick:
--- 1025 times
    c№: pulse
=> Refused
error 9 Limit config/config.yaml 3 kick
no

=== coils 257
--- check
@ config/config.yaml
#config_version=6
coils:
--- 257 times
  c№:
=> Refused
fault 7 Limit coils
no

=== coils 256
--- check
@ config/config.yaml
#config_version=6
coils:
--- 256 times
  c№:
=> Yes
yes
pinball-certificate 2
bound 0
";

#[test]
fn coils_are_checked(rt: HostRuntime) {
    assert_rows(&rt, CHECKS);
    assert_rows(&rt, REFUSALS);
    assert_rows(&rt, LIMITS);
}
