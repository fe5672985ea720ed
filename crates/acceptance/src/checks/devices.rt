//! Logic blocks and timers: bundles that are checked.

use crate::checks::row::assert_rows;

const CHECKS: &str = "
=== counter check
What a count costs is its dearest answer: it completes.
--- check
@ config/config.yaml
#config_version=6
switches:
  s_left:
    number: 1
counters:
  c:
    count_events: s_left_active
    count_complete_value: 2
=> Yes
yes
pinball-certificate 2
bound 5
switch s_left 5
event s_left_active 4
event s_left_inactive 1
event logicblock_c_updated 1
event logicblock_c_hit 1
event logicblock_c_complete 1

=== counter that never completes, and posts events of its own
An event of a setting has its number before those of the effect lists.
--- check
@ config/config.yaml
#config_version=6
switches:
  s_target:
    number: 1
counters:
  hits:
    count_events: s_target_active
    reset_events: again
    events_when_hit: a, b
event_player:
  a: again
=> Yes
yes
pinball-certificate 2
bound 7
switch s_target 7
event s_target_active 6
event s_target_inactive 1
event again 2
event a 3
event b 1
event logicblock_hits_updated 1
event logicblock_hits_complete 1

=== counter that counts its own hits
--- check
@ config/config.yaml
#config_version=6
switches:
  s_target:
    number: 1
counters:
  hits:
    count_events: s_target_active, logicblock_hits_hit
=> Refused
fault 8 Cycle logicblock_hits_hit
no

=== timer at end
--- check
@ config/config.yaml
#config_version=6
modes: m
@ modes/m/config/m.yaml
#config_version=6
timers:
  t:
    direction: down
=> Refused
fault 5 TimerAtEnd modes/m/config/m.yaml 3 t
no

=== timers that start at their end
A timer that goes up ends nowhere, unless its end is written; one that goes down ends at 0.
--- check
@ config/config.yaml
#config_version=6
modes: m
@ modes/m/config/m.yaml
#config_version=6
timers:
  down_from_nothing:
    direction: down
  at_its_end:
    start_value: 5
    end_value: 5
  past_its_end:
    start_value: 6
    end_value: 5
  up: {}
  down:
    direction: down
    start_value: 1
event_player:
  x: mode_m_started
=> Refused
fault 5 TimerAtEnd modes/m/config/m.yaml 3 down_from_nothing
fault 5 TimerAtEnd modes/m/config/m.yaml 5 at_its_end
fault 5 TimerAtEnd modes/m/config/m.yaml 8 past_its_end
fault 1 Name modes/m/config/m.yaml 16 mode_m_started
no

=== reserved events posted by blocks
--- check
@ config/config.yaml
#config_version=6
switches:
  s:
counters:
  c:
    count_events: s_active
    events_when_complete: ball_drain
accruals:
  a:
    events:
    - s_active
    events_when_hit: game_ended, game_ended
sequences:
  q:
    events:
    - s_active
    events_when_complete: ball_ended
=> Refused
fault 1 Name config/config.yaml 7 ball_drain
fault 1 Name config/config.yaml 12 game_ended
fault 1 Name config/config.yaml 17 ball_ended
no
";

#[test]
fn devices_are_checked(rt: HostRuntime) {
    assert_rows(&rt, CHECKS);
}
