//! Games, players, their variables, and conditions: bundles that are checked.

use crate::checks::row::assert_rows;

const CHECKS: &str = "
=== condition does not break cycle
--- check
@ config/config.yaml
#config_version=6
event_player:
  player_score{current_player.score>=1000}: bonus
variable_player:
  bonus:
    score: 500
=> Refused
fault 8 Cycle player_score bonus
no

=== ball variable set
--- check
@ config/config.yaml
#config_version=6
variable_player:
  x:
    ball: 1
=> Refused
fault 1 Name config/config.yaml 4 ball
no

=== variables whose changes post reserved events
Each is at its own line. The number of a player is the game's too.
--- check
@ config/config.yaml
#config_version=6
variable_player:
  x:
    added: 1
    turn_ended: {int: 1, action: set}
    turn_over: 1
  y{current_player.number == 1}:
    number: 2
=> Refused
fault 1 Name config/config.yaml 4 added
fault 1 Name config/config.yaml 5 turn_ended
fault 1 Name config/config.yaml 8 number
no

=== costs of a change beside a mode
--- check
@ config/config.yaml
#config_version=6
modes: m
variable_player:
  x:
    v: 1
@ modes/m/config/m.yaml
#config_version=6
mode:
  game_mode: no
  start_events: x
=> Yes
yes
pinball-certificate 2
bound 0
event x 8
event player_v 1
event mode_m_will_start 5
event mode_m_starting 4
event mode_m_started 3
event mode_m_stopping 2
event mode_m_stopped 1
event ball_ending 3

=== costs of changes
A change costs its line and the event that it posts, whatever its condition says.
--- check
@ config/config.yaml
#config_version=6
variable_player:
  x{current_player.a < 1}:
    a: 1
    b: {int: 2, action: set}
event_player:
  player_a: y
=> Yes
yes
pinball-certificate 2
bound 0
event x 6
event player_a 2
event player_b 1
event y 1

=== costs of a game
The game's end costs a line for each player that there can be.
--- check
@ config/config.yaml
#config_version=6
machine:
  min_balls: 0
game:
  max_players: 2
=> Yes
yes
pinball-certificate 2
bound 0
event sw_start 11
event game_will_start 10
event game_starting 9
event player_added 1
event game_started 7
event player_turn_will_start 6
event player_turn_starting 5
event player_turn_started 4
event ball_will_start 3
event ball_starting 2
event ball_started 1
event ball_drain 13
event ball_will_end 12
event ball_ending 11
event ball_ended 10
event player_turn_will_end 9
event player_turn_ending 8
event player_turn_ended 7
event game_will_end 5
event game_ending 4
event game_ended 3

=== variable player of 1,025 variables, none of which has a number
--- check
@ config/config.yaml
#config_version=6
variable_player:
  x:
--- 1025 times
    v№:
=> Refused
error 9 Limit config/config.yaml 3 x
no
";

#[test]
fn games_are_checked(rt: HostRuntime) {
    assert_rows(&rt, CHECKS);
}
