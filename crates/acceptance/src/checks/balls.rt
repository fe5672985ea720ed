//! Ball devices, ball saves, multiballs, and games with balls: bundles that are checked.

use crate::checks::row::assert_rows;

const CHECKS: &str = "
=== no eject coil
--- check
@ config/config.yaml
#config_version=6
switches:
  s: {number: 1}
ball_devices:
  d: {ball_switches: s}
=> Refused
fault 6 BallRoute config/config.yaml 5 d
no

=== ways of balls
A ring of targets, a device that leads into it, a target that nothing defines, a ball switch of two devices, one
that stands twice in a device, and a trough without a coil: each device is at fault once, the first of two
devices of one switch is not.
--- check
@ config/config.yaml
#config_version=6
coils: {c: {number: 1}}
switches: {s: {number: 1}, t: {number: 2}, u: {number: 3}}
ball_devices:
  a: {ball_switches: [], eject_coil: c, eject_targets: b}
  b: {ball_switches: [], eject_coil: c, eject_targets: a}
  in: {ball_switches: [], eject_coil: c, eject_targets: a}
  lost:
    ball_switches: []
    eject_coil: c
    eject_targets: nowhere
  first: {ball_switches: s, eject_coil: c}
  second: {ball_switches: [t, s], eject_coil: c}
  twice: {ball_switches: [u, u], eject_coil: c}
  trough: {ball_switches: [], mechanical_eject: yes, tags: trough}
  plunger: {ball_switches: [], mechanical_eject: yes, eject_targets: first}
=> Refused
fault 6 BallRoute config/config.yaml 5 a
fault 6 BallRoute config/config.yaml 6 b
fault 6 BallRoute config/config.yaml 7 in
fault 6 BallRoute config/config.yaml 8 lost
fault 1 Name config/config.yaml 11 nowhere
fault 6 BallRoute config/config.yaml 13 second
fault 6 BallRoute config/config.yaml 14 twice
fault 6 BallRoute config/config.yaml 15 trough
no

=== names of ball devices
A coil that nothing defines is one, and so the way of balls is not at fault for it.
--- check
@ config/config.yaml
#config_version=6
ball_devices:
  d:
    ball_switches: s, t
    eject_coil: c
    eject_targets: playfield
=> Refused
fault 1 Name config/config.yaml 4 s
fault 1 Name config/config.yaml 4 t
fault 1 Name config/config.yaml 5 c
no

=== device called playfield
--- check
@ config/config.yaml
#config_version=6
ball_devices:
  playfield:
    ball_switches: s
=> Refused
error 6 BadValue config/config.yaml 3 playfield
no

=== settings of ball devices
--- check
@ config/config.yaml
#config_version=6
ball_devices:
  d: {ball_switches: s, eject_timeouts: 0}
=> Refused
error 6 BadValue config/config.yaml 3 eject_timeouts
no

=== ball devices of a mode
--- check
@ config/config.yaml
#config_version=6
modes: m
@ modes/m/config/m.yaml
#config_version=6
ball_devices:
  d: {ball_switches: s}
=> Refused
error 4 UnknownSection modes/m/config/m.yaml 2 ball_devices
no

=== costs of a ball device
The dearest alarm counts a ball and ejects it at once: a line and an event, and then two events and a pulse.
--- check
@ config/config.yaml
#config_version=6
switches:
  s:
    number: 1
coils:
  c:
    number: 1
ball_devices:
  d: {ball_switches: s, eject_coil: c}
=> Yes
yes
pinball-certificate 2
bound 5
switch s 2
event s_active 1
event s_inactive 1
event balldevice_d_ball_enter 1
event balldevice_d_ball_eject_attempt 1
event balldevice_d_ejecting_ball 1
event balldevice_d_ball_eject_success 1
event balldevice_d_ball_eject_failed 1

=== costs of a device that gives up
With one attempt there is no second, and without a coil none at all: a ball that enters costs its line and
its event, and one on its way that is late costs a line and the event of its success.
--- check
@ config/config.yaml
#config_version=6
event_player:
  balldevice_d_ball_eject_failed: a, b, c, d, e, f
switches:
  s:
    number: 1
ball_devices:
  d: {ball_switches: s, mechanical_eject: yes, max_eject_attempts: 1}
=> Yes
yes
pinball-certificate 2
bound 2
switch s 2
event balldevice_d_ball_eject_failed 7
event a 1
event b 1
event c 1
event d 1
event e 1
event f 1
event s_active 1
event s_inactive 1
event balldevice_d_ball_enter 1
event balldevice_d_ball_eject_attempt 1
event balldevice_d_ejecting_ball 1
event balldevice_d_ball_eject_success 1

=== costs of a game with balls
A ball that enters the trough may have drained, one that enters the plunger may be confirmed, and so may one on
the playfield. The ball that a game asks for may be ejected at once.
--- check
@ config/config.yaml
#config_version=6
ball_devices:
  t: {ball_switches: s_t, eject_coil: c_t, eject_targets: p, tags: [trough, drain]}
  p: {ball_switches: s_p, eject_coil: c_p}
switches:
  s_t: {number: 1}
  s_p: {number: 2}
  s_f: {number: 3, tags: playfield_active}
coils:
  c_t: {number: 1}
  c_p: {number: 2}
game:
=> Yes
yes
pinball-certificate 2
bound 21
switch s_t 2
switch s_p 2
switch s_f 8
event balldevice_t_ball_enter 1
event ball_drain 16
event balldevice_t_ball_eject_attempt 1
event balldevice_t_ejecting_ball 1
event balldevice_t_ball_eject_success 1
event balldevice_t_ball_eject_failed 1
event balldevice_p_ball_enter 1
event balldevice_p_ball_eject_attempt 1
event balldevice_p_ejecting_ball 1
event balldevice_p_ball_eject_success 1
event balldevice_p_ball_eject_failed 1
event s_t_active 1
event s_t_inactive 1
event s_p_active 1
event s_p_inactive 1
event s_f_active 1
event sw_playfield_active 1
event s_f_inactive 1
event sw_start 14
event game_will_start 13
event game_starting 12
event player_added 1
event game_started 10
event player_turn_will_start 9
event player_turn_starting 8
event player_turn_started 7
event ball_will_start 6
event ball_starting 5
event ball_started 1
event ball_will_end 15
event ball_ending 14
event ball_ended 13
event player_turn_will_end 12
event player_turn_ending 11
event player_turn_ended 10
event game_will_end 7
event game_ending 6
event game_ended 5

=== cycle through a ball that is asked for
The game asks the trough for a ball, the trough's attempt presses the start button, and that begins the game.
--- check
@ config/config.yaml
#config_version=6
event_player:
  balldevice_t_ball_eject_attempt: sw_start
ball_devices:
  t: {ball_switches: s_t, eject_coil: c_t, tags: trough}
switches:
  s_t: {number: 1}
coils:
  c_t: {number: 1}
game:
=> Refused
fault 8 Cycle balldevice_t_ball_eject_attempt sw_start game_will_start game_starting game_started \
player_turn_will_start player_turn_starting player_turn_started ball_will_start ball_starting
no
";

// Ball saves and multiballs.
const SAVES: &str = "
=== costs of ball saves and multiballs
What enables a ball save posts its event; a multiball that starts may ask the trough for balls, which may be ejected at
once. A ball that drains is saved, or ends the ball, or ends the multiballs.
--- check
@ config/config.yaml
#config_version=6
switches:
  s: {number: 1}
coils:
  c: {number: 1}
ball_devices:
  t: {ball_switches: s, eject_coil: c, tags: trough}
ball_saves:
  b: {active_time: 1s, enable_events: s_active}
  d: {enable_events: s_inactive, disable_events: s_active}
multiballs:
  m: {ball_count: 2, start_events: s_active}
game:
=> Yes
yes
pinball-certificate 2
bound 8
switch s 8
event s_active 7
event s_inactive 2
event balldevice_t_ball_enter 1
event balldevice_t_ball_eject_attempt 1
event balldevice_t_ejecting_ball 1
event balldevice_t_ball_eject_success 1
event balldevice_t_ball_eject_failed 1
event ball_save_b_enabled 1
event ball_save_b_disabled 1
event ball_save_b_saving_ball 1
event ball_save_d_enabled 1
event ball_save_d_disabled 1
event ball_save_d_saving_ball 1
event multiball_m_started 1
event multiball_m_ended 1
event sw_start 14
event game_will_start 13
event game_starting 12
event player_added 1
event game_started 10
event player_turn_will_start 9
event player_turn_starting 8
event player_turn_started 7
event ball_will_start 6
event ball_starting 5
event ball_started 1
event ball_drain 16
event ball_will_end 15
event ball_ending 14
event ball_ended 13
event player_turn_will_end 12
event player_turn_ending 11
event player_turn_ended 10
event game_will_end 7
event game_ending 6
event game_ended 5

=== costs of a ball that is saved
What the event of a saved ball leads to costs more than the end of the ball does. After that event the ball save may be
disabled, and the trough may eject a ball.
--- check
@ config/config.yaml
#config_version=6
event_player:
  ball_save_b_saving_ball: sw_start
ball_saves:
  b: {enable_events: a}
ball_devices:
  t: {ball_switches: s, eject_coil: c, tags: [trough, drain]}
switches:
  s: {number: 1}
coils:
  c: {number: 1}
game:
=> Yes
yes
pinball-certificate 2
bound 25
switch s 2
event ball_save_b_saving_ball 15
event sw_start 14
event a 2
event ball_save_b_enabled 1
event ball_save_b_disabled 1
event balldevice_t_ball_enter 1
event ball_drain 20
event balldevice_t_ball_eject_attempt 1
event balldevice_t_ejecting_ball 1
event balldevice_t_ball_eject_success 1
event balldevice_t_ball_eject_failed 1
event s_active 1
event s_inactive 1
event game_will_start 13
event game_starting 12
event player_added 1
event game_started 10
event player_turn_will_start 9
event player_turn_starting 8
event player_turn_started 7
event ball_will_start 6
event ball_starting 5
event ball_started 1
event ball_will_end 15
event ball_ending 14
event ball_ended 13
event player_turn_will_end 12
event player_turn_ending 11
event player_turn_ended 10
event game_will_end 7
event game_ending 6
event game_ended 5

=== cycle through a ball save
--- check
@ config/config.yaml
#config_version=6
event_player:
  ball_save_b_enabled: a
ball_saves:
  b: {enable_events: a}
=> Refused
fault 8 Cycle ball_save_b_enabled a
no

=== cycle through a multiball
--- check
@ config/config.yaml
#config_version=6
event_player:
  multiball_m_started: a
multiballs:
  m: {ball_count: 2, start_events: a}
=> Refused
fault 8 Cycle multiball_m_started a
no

=== cycle through balls of a multiball
The multiball asks the trough for a ball, whose attempt starts the multiball.
--- check
@ config/config.yaml
#config_version=6
event_player:
  balldevice_t_ball_eject_attempt: a
ball_saves:
  b: {enable_events: b, disable_events: b}
multiballs:
  m: {ball_count: 2, start_events: a}
ball_devices:
  t: {ball_switches: s, eject_coil: c, tags: trough}
switches:
  s: {number: 1}
coils:
  c: {number: 1}
=> Refused
fault 8 Cycle balldevice_t_ball_eject_attempt a
no
";

// Ball devices that are refused.
const REFUSALS: &str = "
=== names in ball devices that nothing defines
In a line they come as they are written, and the device after them.
--- check
@ config/config.yaml
#config_version=6
switches:
  s_a:
ball_devices:
  d:
    ball_switches:
      - s_a
      - s_no
    eject_targets: nowhere
    eject_coil: c_no
  e: {eject_targets: none, eject_coil: c_e, ball_switches: [t_no, u_no]}
  f: {ball_switches: [], eject_coil: c_no, eject_targets: playfield}
=> Refused
fault 6 BallRoute config/config.yaml 5 d
fault 1 Name config/config.yaml 8 s_no
fault 1 Name config/config.yaml 9 nowhere
fault 1 Name config/config.yaml 10 c_no
fault 1 Name config/config.yaml 11 none
fault 1 Name config/config.yaml 11 c_e
fault 1 Name config/config.yaml 11 t_no
fault 1 Name config/config.yaml 11 u_no
fault 6 BallRoute config/config.yaml 11 e
fault 1 Name config/config.yaml 12 c_no
no

=== target that is no ball device
--- check
@ config/config.yaml
#config_version=6
switches:
  s:
coils:
  c:
flippers:
  f: {main_coil: c, activation_switch: s}
ball_devices:
  d: {ball_switches: [], eject_coil: c, eject_targets: f}
  e: {ball_switches: [], eject_coil: c, eject_targets: D}
=> Refused
fault 1 Name config/config.yaml 9 f
fault 6 BallRoute config/config.yaml 9 d
fault 1 Name config/config.yaml 10 D
fault 6 BallRoute config/config.yaml 10 e
no

=== rings of targets, and what leads into them
A device of another ring, or of none, is not at fault.
--- check
@ config/config.yaml
#config_version=6
coils:
  c:
ball_devices:
  a: {ball_switches: [], eject_coil: c, eject_targets: b}
  b: {ball_switches: [], eject_coil: c, eject_targets: e}
  into: {ball_switches: [], eject_coil: c, eject_targets: lane}
  last: {ball_switches: [], eject_coil: c}
  lane: {ball_switches: [], eject_coil: c, eject_targets: b}
  e: {ball_switches: [], eject_coil: c, eject_targets: a}
  first: {ball_switches: [], eject_coil: c, eject_targets: next}
  next: {ball_switches: [], eject_coil: c, eject_targets: last}
  itself: {ball_switches: [], eject_coil: c, eject_targets: itself}
=> Refused
fault 6 BallRoute config/config.yaml 5 a
fault 6 BallRoute config/config.yaml 6 b
fault 6 BallRoute config/config.yaml 7 into
fault 6 BallRoute config/config.yaml 9 lane
fault 6 BallRoute config/config.yaml 10 e
fault 6 BallRoute config/config.yaml 13 itself
no

=== targets that lead to a name that nothing defines
--- check
@ config/config.yaml
#config_version=6
coils:
  c:
ball_devices:
  a: {ball_switches: [], eject_coil: c, eject_targets: b}
  b: {ball_switches: [], eject_coil: c, eject_targets: d}
=> Refused
fault 6 BallRoute config/config.yaml 5 a
fault 1 Name config/config.yaml 6 d
fault 6 BallRoute config/config.yaml 6 b
no

=== longest way that leads to the playfield
--- check
@ config/config.yaml
#config_version=6
coils:
  c:
ball_devices:
  e: {ball_switches: [], eject_coil: c, eject_targets: d}
  d: {ball_switches: [], eject_coil: c, eject_targets: b}
  a: {ball_switches: [], eject_coil: c, eject_targets: playfield}
  b: {ball_switches: [], eject_coil: c, eject_targets: a}
coil_player:
  x: {c_no: pulse}
=> Refused
fault 1 Name config/config.yaml 10 c_no
no

=== ball switches of two devices, and twice in one
The later device is at fault, once. Names that nothing defines are compared too.
--- check
@ config/config.yaml
#config_version=6
switches:
  s_a:
  s_b:
  s_c:
coils:
  c:
ball_devices:
  d: {ball_switches: [s_a, s_b], eject_coil: c}
  e: {ball_switches: [s_c, s_c, s_c], eject_coil: c}
  f: {ball_switches: [s_b, s_c], eject_coil: c}
  g: {ball_switches: s_no, eject_coil: c}
  h:
    eject_coil: c
    ball_switches:
      - S_a
      - s_no
=> Refused
fault 6 BallRoute config/config.yaml 10 e
fault 6 BallRoute config/config.yaml 11 f
fault 1 Name config/config.yaml 12 s_no
fault 6 BallRoute config/config.yaml 13 h
fault 1 Name config/config.yaml 16 S_a
fault 1 Name config/config.yaml 17 s_no
no

=== nothing that ejects a ball
A coil that nothing defines is one for this. A trough needs a coil, and a tag is compared as written.
--- check
@ config/config.yaml
#config_version=6
coils:
  c:
ball_devices:
  none: {ball_switches: []}
  by_hand: {ball_switches: [], mechanical_eject: no}
  plunger: {ball_switches: [], mechanical_eject: yes}
  trough: {ball_switches: [], mechanical_eject: yes, tags: 'home, trough'}
  other: {ball_switches: [], mechanical_eject: yes, tags: Trough}
  unknown: {ball_switches: [], eject_coil: c_no, tags: trough}
  fine: {ball_switches: [], eject_coil: c, tags: trough}
=> Refused
fault 6 BallRoute config/config.yaml 5 none
fault 6 BallRoute config/config.yaml 6 by_hand
fault 6 BallRoute config/config.yaml 8 trough
fault 1 Name config/config.yaml 10 c_no
no

=== all that can be wrong with a device is one fault
--- check
@ config/config.yaml
#config_version=6
switches:
  s:
ball_devices:
  d: {ball_switches: [s, s], eject_targets: d, tags: trough}
=> Refused
fault 6 BallRoute config/config.yaml 5 d
no

=== coil whose pulse is too long ejects balls
The coil is at fault, and not the device.
--- check
@ config/config.yaml
#config_version=6
ball_devices:
  d: {ball_switches: [], eject_coil: c}
coils:
  c: {max_pulse_ms: 5}
=> Refused
fault 2 PulseLimit config/config.yaml 5 c
no
";

#[test]
fn balls_are_checked(rt: HostRuntime) {
    assert_rows(&rt, CHECKS);
    assert_rows(&rt, REFUSALS);
}

#[test]
fn saves_are_checked(rt: HostRuntime) {
    assert_rows(&rt, SAVES);
}
